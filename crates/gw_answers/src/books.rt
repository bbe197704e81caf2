ghost use Rattle.std.specs.Prelude.{◌≡◌, ◌*◌, ◌^◌, ◌<◌, ◌≤◌, ◌⊎◌, [], List, ℕ, map, length, sum, replicate, slice_get, option_copied, option_map, Some, true, IfOk, IfSome, OnOk, OnErr};
ghost use Rattle.gw_answers.specs.declared.books.Drawn.{Drawn};
ghost use Rattle.gw_text.specs.model.Picks.{after_draw, drawn_from};
ghost use Rattle.gw_answers.specs.model.Decisions.{backend_choice, endpoint_choice, item_at, picked_backend, picked_endpoint};

use gw_rows::{Backend, Row};
use gw_text::{Key, NoMemory, Socket};
use gw_weight::{Book, EqualBook, sum_of};
use std::alloc::Global;

/// The most weights of a pick. No machine holds as many.
const MOST_WEIGHTS: usize = 4_294_967_295;

/// How often each backend of a rule, and each endpoint of a Service's port, was picked.
#[derive(Drop)]
pub struct Books {
    pub backends: Book,
    pub endpoints: EqualBook,
}

/// A backendRef that was drawn, and its place in the rule.
#[derive(Clone, Copy)]
pub(crate) struct Drawn<'r> {
    pub place: usize,
    pub backend: &'r Backend,
}

impl Books {
    /// Nothing was picked.
    pub fn new(alloc: Global) -> Self
        ensures { result ≡ record { backends = []; endpoints = [] } }
    {
        Books {
            backends: Book::new(alloc),
            endpoints: EqualBook::new(alloc),
        }
    }

    /// Picks the backend that is next.
    pub(crate) fn pick_backend<'r>(
        &mut self,
        alloc: Global,
        row: &'r Row,
    ) -> Result<Option<Drawn<'r>>, NoMemory>
        ensures pick { IfOk result (λ drawn. option_map (λ (d : Drawn). d.backend.now) drawn ≡ picked_backend row.now self.old) }
        ensures place { IfOk result (λ drawn. IfSome drawn (λ d. slice_get row.now.plan.backends d.place ≡ Some d.backend.now)) }
        ensures after { OnOk result (self.new ≡ record self.old { backends = after_draw (backend_choice row.now) self.old.backends }) }
        ensures err { OnErr result ((self.new ≡ self.old) ⊎ (self.new ≡ record self.old { backends = [] })) }
    {
        let backends = row.plan.backends.as_slice();
        let weights = weights_of(alloc, backends)?;
        let picked = draw(
            &mut self.backends,
            &row.key,
            u64::from(row.rule),
            weights.as_slice(),
        )?;
        Ok(drawn_at(backends, picked))
    }

    /// Picks the endpoint that is next.
    pub(crate) fn pick_endpoint(
        &mut self,
        backend: &Backend,
        sockets: &[Socket],
    ) -> Result<Option<Socket>, NoMemory>
        ensures pick { IfOk result (λ s. s ≡ picked_endpoint backend.now sockets.now self.old) }
        ensures after { OnOk result (self.new ≡ record self.old { endpoints = after_draw (endpoint_choice backend.now sockets.now) self.old.endpoints }) }
        ensures err { OnErr result ((self.new ≡ self.old) ⊎ (self.new ≡ record self.old { endpoints = [] })) }
    {
        let picked = self
            .endpoints
            .draw(&backend.key, u64::from(backend.port), sockets.len())?;
        Ok(item_at(sockets, picked).copied())
    }
}

fn weights_of(alloc: Global, backends: &[Backend]) -> Result<Vec<u32>, NoMemory>
    ensures { IfOk result (λ weights. weights.items ≡ map (λ b. b.weight) backends.now) }
{
    let mut weights = Vec::new(alloc);
    'backends: for backend in backends {
        weights.push(backend.weight)?;
    }
    Ok(weights)
}

// The next pick. More weights than a machine holds are want of memory.
fn draw(
    book: &mut Book,
    name: &Key,
    number: u64,
    weights: &[u32],
) -> Result<Option<usize>, NoMemory>
    ensures pick { IfOk result (λ picked. picked ≡ drawn_from (record { name = name.now; number = number; weights = weights.now }) book.old) }
    ensures after { OnOk result (book.new ≡ after_draw (record { name = name.now; number = number; weights = weights.now }) book.old) }
    ensures err { OnErr result ((book.new ≡ book.old) ⊎ (book.new ≡ [])) }
{
    if !is_counted(weights) {
        return Err(NoMemory);
    }
    book.draw(name, number, weights)
}

fn is_counted(weights: &[u32]) -> bool
    ensures { result ≡ true → length weights.now * sum weights.now < 2 ^ 126 }
{
    let total = sum_of(weights);
    weights.len() <= MOST_WEIGHTS && total < 1 << 64
}

fn drawn_at(backends: &[Backend], place: Option<usize>) -> Option<Drawn<'_>>
    ensures backend { option_map (λ (d : Drawn). d.backend.now) result ≡ item_at backends.now place }
    ensures place { IfSome result (λ d. slice_get backends.now d.place ≡ Some d.backend.now) }
{
    let place = place?;
    let backend = backends.get(place)?;
    Some(Drawn { place, backend })
}

fn item_at<T: Drop>(items: &[T], place: Option<usize>) -> Option<&T>
    ensures { option_copied result ≡ item_at items.now place }
{
    items.get(place?)
}
