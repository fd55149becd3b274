//! Keys that may not stand twice.
ghost use Rattle.std.specs.Prelude.{◌≡◌};
ghost use Rattle.scenario_form.specs.Across.{none_twice};
ghost use Rattle.scenario_form.specs.Answers.{Passes};

use crate::field::Code;
use crate::refusal::{Place, Refusal, Stop};
use std::collections::HashSet;
use std::hash::Hash;

/// Refuses the first key that is among those held, or stands before in the list.
pub fn check_none_twice<K: Eq + Hash + Copy>(
    mut held: HashSet<K>,
    keys: &[(Place, K)],
) -> Result<(), Stop<Refusal>>
    ensures { Passes result (none_twice K.eq held.keys keys.now) }
{
    for (place, key) in keys {
        match held.insert(*key) {
            Ok(true) => {}
            Ok(false) => return Err(Stop::Refused(Refusal::Schema {
                place: *place,
                code: Code::Twice,
            })),
            Err(_) => return Err(Stop::NoMemory),
        }
    }
    Ok(())
}
