ghost use Rattle.std.specs.Prelude.{◌≡◌, option_copied};
ghost use Rattle.gw_text.specs.model.Listeners as rules;

use gw_objects::{Address, Gateway};
use gw_text::{AddressType, Door, Doors, Text, parse_ipv4};
use std::net::Ipv4Addr;

fn is_ip_address(address: &Address) -> bool
    ensures { result ≡ rules.is_ip_address address.now }
{
    match &address.sort {
        AddressType::IpAddress => true,
        AddressType::Other(_) => false,
    }
}

fn is_address_of(door: &Door, address: Option<Ipv4Addr>) -> bool
    ensures { result ≡ rules.is_address_of door.now address }
{
    address == Some(door.at.address())
}

// The value is given, not empty, and not the door's address.
fn is_another_address(door: &Door, value: &Option<Text>) -> bool
    ensures { result ≡ rules.is_another_address door.now (rules.given_value value.now) }
{
    match value {
        Some(text) if !text.bytes().is_empty() => { !is_address_of(door, parse_ipv4(text.bytes())) }
        _ => false,
    }
}

fn is_unusable(door: Option<&Door>, address: &Address) -> bool
    ensures { result ≡ rules.is_unusable (option_copied door.entry) address.now }
{
    match door {
        Some(door) => is_ip_address(address) && is_another_address(door, &address.value),
        None => false,
    }
}

/// Whether the Gateway asks for an address of another type.
#[tactic(auto, unfolding(gw_text::specs::model::Listeners::has_unsupported_address))]
pub fn has_unsupported_address(gateway: &Gateway) -> bool
    ensures { result ≡ rules.has_unsupported_address gateway.now }
{
    gateway
        .addresses
        .iter()
        .any(|address| !is_ip_address(address))
}

/// Whether the Gateway asks for an address that isn't that of its doors.
#[tactic(auto, unfolding(gw_text::specs::model::Listeners::has_unusable_address))]
pub fn has_unusable_address(doors: &Doors, gateway: &Gateway) -> bool
    ensures { result ≡ rules.has_unusable_address doors.now gateway.now }
{
    let door = doors.first(&gateway.meta.key);
    gateway
        .addresses
        .iter()
        .any(|address| is_unusable(door, address))
}

/// Whether the Gateway's addresses or its want of a door keep all its listeners from being programmed.
#[tactic(auto, unfolding(gw_text::specs::model::Listeners::has_address_fault))]
pub fn has_address_fault(doors: &Doors, gateway: &Gateway) -> bool
    ensures { result ≡ rules.has_address_fault doors.now gateway.now }
{
    has_unsupported_address(gateway)
        || doors.first(&gateway.meta.key).is_none()
        || has_unusable_address(doors, gateway)
}
