// The operation *generate*.
ghost use Rattle.std.specs.Prelude.{◌≡◌};
ghost use Rattle.loading.specs.Operation.{is_load, Generated};

use crate::lines::load_lines;
use refusals::Refusal;

// Whether there is a load with n atoms and c clauses.
#[tactic(auto, unfolding(crate::specs::Operation::is_load))]
fn is_load(n: u64, c: u64) -> bool
    ensures { result ≡ is_load n c }
{
    (1..=64).contains(&n) && c <= 256
}

// Writes the case file that follows from a seed, with n atoms and c clauses, to a lent output, and answers its length
// in bytes. Refuses other numbers than 1 to 64 atoms and at most 256 clauses, then an output shorter than the text, and
// then touches nothing.
pub fn generate(seed: u32, n: u64, c: u64, out: &mut [u8]) -> Result<usize, Refusal>
    ensures { Generated seed n c out.old result out.new }
{
    if !is_load(n, c) {
        return Err(Refusal::NoLoad);
    }
    let page = load_lines(&mut [0; 1], seed, n, c);
    if out.len() < page.at {
        return Err(Refusal::ShortLoadOutput);
    }
    load_lines(out, seed, n, c);
    Ok(page.at)
}
