//! Words of a file that an order reads or writes.
ghost use Rattle.std.specs.Prelude.{◌≡◌, ◌+◌, ◌*◌, ◌/◌, ◌≤◌, ◌++◌, [], length, true, IfOk, IsTrue};
ghost use Rattle.arrayvec.specs.ArrayVec.{array_vec_len};
ghost use Rattle.data_files.specs.Effect.{is_refusal};
ghost use Rattle.data_files.specs.Tables.{has_words, words_at};
ghost use Rattle.plc_commands.specs.Meaning.{read_after, written};

use arrayvec::ArrayVec;
use data_files::{Tables, push_words, words_of};
use df1_base::Code;

/// `count` words of a file, starting at an index.
#[derive(Clone, Copy)]
pub(crate) struct Span {
    /// The number of the file.
    pub file: u16,
    /// The index of the first word.
    pub first: u32,
    /// The number of words.
    pub count: u32,
}

/// Appends the words to `out`, unless the order is refused.
pub(crate) fn read_words(
    tables: &Tables,
    span: Result<Span, Code>,
    out: &mut ArrayVec<u8, 244>,
) -> Code
    requires there { IfOk span (λ s. has_words tables.now.specs s.file s.first s.count ≡ true) }
    requires room { IfOk span (λ s. array_vec_len out.old + 2 * s.count ≤ 244) }
    requires none { out.old.items ≡ [] }
    ensures code { result ≡ (read_after tables.now [] span).code }
    ensures reply { out.new.items ≡ (read_after tables.now [] span).reply }
    ensures refused { IsTrue (is_refusal result) → out.new.items ≡ [] }
{
    match span {
        Ok(span) => {
            push_words(words_in(tables, span), out);
            Code::Done
        }
        Err(code) => code,
    }
}

/// Returns the words.
pub(crate) fn words_in(tables: &Tables, span: Span) -> &[u16]
    requires { has_words tables.now.specs span.file span.first span.count ≡ true }
    ensures words { result.now ≡ words_at tables.now span.file span.first span.count }
    ensures count { length result.now ≡ span.count }
{
    tables.range(span.file, span.first, span.count).unwrap()
}

/// Replaces the words by those of `bytes`, unless the order is refused.
pub(crate) fn write_words(tables: &mut Tables, span: Result<Span, Code>, bytes: &[u8]) -> Code
    requires there { IfOk span (λ s. has_words tables.old.specs s.file s.first s.count ≡ true) }
    requires all { IfOk span (λ s. length bytes.now ≡ 2 * s.count) }
    requires size { length bytes.now ≤ 244 }
    ensures code { result ≡ (written tables.old bytes.now span).code }
    ensures tables { tables.new ≡ (written tables.old bytes.now span).tables }
    ensures refused { IsTrue (is_refusal result) → tables.new ≡ tables.old }
    ensures files { tables.new.specs ≡ tables.old.specs }
{
    match span {
        Ok(span) => {
            tables.set_words(span.file, span.first, &words_of(bytes));
            Code::Done
        }
        Err(code) => code,
    }
}
