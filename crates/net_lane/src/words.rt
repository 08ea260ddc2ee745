// The words of a start.

ghost use Rattle.std.specs.Prelude.{◌≡◌, ◌≤◌, ℕ, Option, List, codes, map, string_bytes, IfSome, IfNone};
ghost use Rattle.sby_terms.specs.Address.{IsAddress};
ghost use Rattle.net_lane.specs.Words.{AsksNet, AsksOf, budget_of};

use sby_terms::{is_address, number_upto, numbers_are_decimal};

// The most conflicts that may be asked for.
const MAX_CONFLICTS: u32 = 1_000_000_000;

// What the words ask for: an engine at an address, and a budget of conflicts where one is given.
#[derive(Clone, Copy)]
pub(crate) struct NetWords<'a> {
    pub address: &'a str,
    pub conflicts: Option<u32>,
}

impl<'a> NetWords<'a> {
    // The budget of the request.
    pub(crate) fn budget(&self) -> u64
        ensures { result ≡ budget_of self.now.conflicts }
    {
        match self.conflicts {
            Some(conflicts) => u64::from(conflicts),
            None => u64::from(MAX_CONFLICTS),
        }
    }
}

// Reads an address, and after it maybe `--conflicts` and a number.
fn read_rest(rest: &[String]) -> Option<NetWords<'_>>
    ensures some { IfSome result (λ w. AsksOf (map string_bytes rest.now) w.address.now w.conflicts) }
    ensures none { IfNone result ((address : List ℕ) (conflicts : Option ℕ) → AsksOf (map string_bytes rest.now) address conflicts → ⊥) }
{
    match rest {
        [address] => Some(NetWords {
            address: address.as_str(),
            conflicts: None,
        }),
        [address, option, number] => {
            if option.as_str() != "--conflicts" {
                return None;
            }
            numbers_are_decimal();
            match number_upto(MAX_CONFLICTS, number.as_bytes()) {
                Some(conflicts) => Some(NetWords {
                    address: address.as_str(),
                    conflicts: Some(conflicts),
                }),
                None => None,
            }
        }
        _ => None,
    }
}

// Reads what stands after the word `net`, if the first word is that and the next one is a host and a port.
#[tactic(auto, using(crate::proofs::Asks::no_address))]
fn read_engine<'a>(engine: &str, rest: &'a [String]) -> Option<NetWords<'a>>
    ensures some { IfSome result (λ w. (engine.now ≡ codes "net") × AsksOf (map string_bytes rest.now) w.address.now w.conflicts × IsAddress w.address.now) }
    ensures none { IfNone result (engine.now ≡ codes "net" → (address : List ℕ) (conflicts : Option ℕ) → AsksOf (map string_bytes rest.now) address conflicts → IsAddress address → ⊥) }
{
    if engine != "net" {
        return None;
    }
    let asked = read_rest(rest)?;
    if !is_address(asked.address.as_bytes()) {
        return None;
    }
    Some(asked)
}

// Reads `net`, a host and a port with a colon between them, and after it maybe `--conflicts` and a number from 1 to 1,000,000,000.
pub(crate) fn read_words(words: &[String]) -> Option<NetWords<'_>>
    ensures some { IfSome result (λ w. AsksNet (map string_bytes words.now) w.address.now w.conflicts) }
    ensures none { IfNone result ((address : List ℕ) (conflicts : Option ℕ) → AsksNet (map string_bytes words.now) address conflicts → ⊥) }
{
    match words.split_first() {
        Some((engine, rest)) => read_engine(engine.as_str(), rest),
        None => None,
    }
}
