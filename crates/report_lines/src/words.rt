//! The final words that are not 0.

ghost use Rattle.std.specs.Prelude.{◌≡◌, ◌<◌, ◌^◌, ◌++◌, length, OnOk};
ghost use Rattle.report_lines.specs.Words.{word_line, words_from, words_of};

use data_files::Tables;
use df1_base::NoMemory;
use script_parts::{WordOf, Words};
use script_statement::Who;

/// Adds the words of an end that aren't 0: files in their order, words rising.
pub fn push_all(who: Who, tables: &Tables, words: &mut Words) -> Result<(), NoMemory>
    ensures { OnOk result (words.new ≡ words.old ++ words_of who tables.now) }
{
    let mut rest = tables.flat();
    for place in 0..tables.files() {
        let Some(spec) = tables.spec_at(place) else {
            unreachable!();
        };
        let (values, more) = rest.split_at(spec.words() as usize);
        push_file(who, spec.number, values, words)?;
        rest = more;
    }
    Ok(())
}

/// Adds the words of a file that aren't 0, of all its words.
fn push_file(who: Who, file: u16, values: &[u16], words: &mut Words) -> Result<(), NoMemory>
    requires { length values.now < 2 ^ 32 }
    ensures { OnOk result (words.new ≡ words.old ++ words_from who file 0 values.now) }
{
    for (index, value) in values.iter().enumerate() {
        push_word(who, file, index as u32, *value, words)?;
    }
    Ok(())
}

/// Adds a word of a file, unless it is 0.
fn push_word(who: Who, file: u16, index: u32, value: u16, words: &mut Words) -> Result<(), NoMemory>
    ensures { OnOk result (words.new ≡ words.old ++ word_line who file index value) }
{
    if value == 0 {
        return Ok(());
    }
    words.push(WordOf {
        who,
        file,
        index,
        value,
    })
}
