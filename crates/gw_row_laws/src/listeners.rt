ghost use Rattle.gw_row_laws.specs.Listening.{DifferInSpecificity, HaveDifferentHostnames};
ghost use Rattle.gw_row_laws.specs.Tabled.{OfEachDoor};

/// The served listeners of a door differ in hostname.
#[tactic(auto, using(crate::proofs::Hostnames::different_hostnames))]
pub fn served_listeners_differ_in_hostname()
    ensures { OfEachDoor (λ rows. HaveDifferentHostnames rows.listeners) }
{}

/// Where two served listeners of a door take requests for a host, one is more specific than the other.
#[tactic(auto, using(crate::proofs::Specificity::different_specificity))]
pub fn served_listeners_differ_in_specificity()
    ensures { OfEachDoor (λ rows. DifferInSpecificity rows.listeners) }
{}
