//! What is drawn for a script.
ghost use Rattle.std.specs.Prelude.{◌≡◌, ◌<◌, IfOk, OnOk};
ghost use Rattle.gw_generate.specs.Draws as draws;

use gw_text::NoMemory;
use rand_core::SeedableRng;
use rand_core::utils::NextWord;
use rand_pcg::Pcg32;
use std::alloc::Global;

/// The generator of a seed.
#[tactic(auto, unfolding(crate::specs::Draws::generator_of))]
pub(crate) fn generator(seed: u64) -> Pcg32
    ensures { result ≡ draws.generator_of seed }
{
    Pcg32::seed_from_u64(seed)
}

/// The next so many words of a generator, each modulo a number.
pub(crate) fn drawn(
    alloc: Global,
    generator: &mut Pcg32,
    count: u32,
    below: u32,
) -> Result<Vec<usize>, NoMemory>
    requires { 0 < below }
    ensures words { IfOk result (λ words. words.items ≡ draws.drawn generator.old count below) }
    ensures behind { OnOk result (generator.new ≡ draws.behind generator.old count) }
{
    let mut words = Vec::new(alloc);
    'words: for _word in 0..count {
        let word = generator.next_word() % below;
        words.push(word as usize)?;
    }
    Ok(words)
}
