//! Read-modify-writes: sets of bits of words, which are changed one after another, all of them or none.
ghost use Rattle.std.specs.Prelude.{◌≡◌, [], None, IsTrue};
ghost use Rattle.data_files.specs.Effect.{is_refusal, refusal};
ghost use Rattle.plc_commands.specs.Order.{Change};
ghost use Rattle.plc_commands.specs.Tests.{change_tests, set_place, set_tests};
ghost use Rattle.plc_commands.specs.Meaning.{changed_word, meaning, with_set};

use crate::Set;
use crate::codes::NO_SUCH_PLACE;
use data_files::{Place, Tables, locate};
use df1_base::Code;

/// Changes the words of the sets in order, each starting from the result of the one before, unless one of them is
/// refused.
pub(crate) fn change(tables: &mut Tables, sets: &[Set]) -> Code
    ensures code { result ≡ (meaning tables.old None [] (Change sets.now)).code }
    ensures tables { tables.new ≡ (meaning tables.old None [] (Change sets.now)).tables }
    ensures refused { IsTrue (is_refusal result) → tables.new ≡ tables.old }
    ensures files { tables.new.specs ≡ tables.old.specs }
{
    if let Some(code) = first_refusal(tables, sets) {
        return code;
    }
    for set in sets {
        change_word(tables, set);
    }
    Code::Done
}

/// Returns the code of the first test of the sets that fails.
fn first_refusal(tables: &Tables, sets: &[Set]) -> Option<Code>
    ensures { result ≡ refusal (change_tests tables.now.specs sets.now) }
{
    for set in sets {
        let code = set_refusal(tables, set);
        if code.is_some() {
            return code;
        }
    }
    None
}

/// Returns the code of the first test of a set that fails.
fn set_refusal(tables: &Tables, set: &Set) -> Option<Code>
    ensures { result ≡ refusal (set_tests tables.now.specs set.now) }
{
    if set.at.area != 0 {
        return Some(NO_SUCH_PLACE);
    }
    match locate(tables, &set_place(set)) {
        Ok(_) => None,
        Err(code) => Some(code),
    }
}

/// Changes the word of a set.
fn change_word(tables: &mut Tables, set: &Set)
    requires { refusal (set_tests tables.old.specs set.now) ≡ None }
    ensures after { tables.new ≡ with_set tables.old set.now }
    ensures files { tables.new.specs ≡ tables.old.specs }
{
    let index = locate(tables, &set_place(set)).unwrap();
    let old = tables.word(set.at.file, index).unwrap();
    tables.set(set.at.file, index, changed_word(set, old));
}

/// Returns the word after a set.
fn changed_word(set: &Set, old: u16) -> u16
    ensures { result ≡ changed_word set.now old }
{
    (old & set.and) | set.or
}

/// Returns the place of the word of a set.
fn set_place(set: &Set) -> Place
    ensures { result ≡ set_place set.now }
{
    Place {
        file: set.at.file,
        kind: None,
        element: set.at.element,
        sub: set.at.sub,
        offset: 0,
        count: 1,
        writes: true,
    }
}
