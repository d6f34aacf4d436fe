//! The data files of an end behind a handle, and their words.

ghost use Rattle.std.specs.Prelude.{◌≡◌, ℕ, List, length, Some};
ghost use Rattle.std.specs.Option.{option_map};
ghost use Rattle.df1_check.specs.declared.Check.{Check as CheckKind};
ghost use Rattle.c_ends.specs.Code.{code_number};
ghost use Rattle.c_calls.specs.Answers.{end_code};
ghost use Rattle.c_calls.specs.Behind.{code_at, told_at, with_change};
ghost use Rattle.c_calls.specs.Locks.{files_locked, lock_code};
ghost use Rattle.c_calls.specs.Words.{change_told, file_at, file_code, file_count, range_code, range_told, seen_told, word_code, word_set, word_told, words_set};
ghost use Rattle.df1_c.specs.Arrived.{IsEndFor};
ghost use Rattle.df1_c.specs.Held.{holding};

use crate::seat::Seat;
use c_calls::{
    lock, set_word, set_words, tell_change, tell_file, tell_files, tell_word, tell_words,
};
use c_ends::{Code, FileParts};
use std::alloc::Global;

/// Reports the value of a word.
#[tactic(auto, unfolding(crate::specs::Held::value_in))]
#[unsafe(no_mangle)]
pub extern "C" fn df1_end_word(
    alloc: Global,
    end: &mut Seat,
    file: u16,
    index: u32,
    value: &mut u16,
) -> u32
    ensures code { result ≡ code_number (code_at (holding end.old) (λ node. word_code node file index)) }
    ensures same { holding end.new ≡ holding end.old }
    ensures told { value.new ≡ told_at (holding end.old) (λ node. word_told node file index) value.old }
{
    let Some(held) = end.take(alloc) else {
        return Code::NoHandle.number();
    };
    let code = tell_word(&held, file, index, value);
    *end = Seat::of(held);
    code.number()
}

/// Sets a word, as a program in the controller would.
#[tactic(auto, unfolding(crate::specs::Held::value_in))]
#[unsafe(no_mangle)]
pub extern "C" fn df1_end_set_word(
    alloc: Global,
    end: &mut Seat,
    file: u16,
    index: u32,
    value: u16,
) -> u32
    ensures code { result ≡ code_number (code_at (holding end.old) (λ node. word_code node file index)) }
    ensures after { holding end.new ≡ option_map (with_change (word_set file index value)) (holding end.old) }
    ensures stands { (check : CheckKind) (bytes : List ℕ) → IsEndFor check bytes (holding end.old) → IsEndFor check bytes (holding end.new) }
{
    let Some(mut held) = end.take(alloc) else {
        return Code::NoHandle.number();
    };
    let code = set_word(&mut held, file, index, value);
    *end = Seat::of(held);
    code.number()
}

/// Reports the values of a run of words.
#[tactic(auto, unfolding(crate::specs::Held::value_in))]
#[unsafe(no_mangle)]
pub extern "C" fn df1_end_words(
    alloc: Global,
    end: &mut Seat,
    file: u16,
    first: u32,
    values: &mut [u16],
) -> u32
    ensures code { result ≡ code_number (code_at (holding end.old) (λ node. range_code node file first (length values.old))) }
    ensures same { holding end.new ≡ holding end.old }
    ensures told { values.new ≡ told_at (holding end.old) (λ node. range_told node file first (length values.old)) values.old }
{
    let Some(held) = end.take(alloc) else {
        return Code::NoHandle.number();
    };
    let code = tell_words(&held, file, first, values);
    *end = Seat::of(held);
    code.number()
}

/// Finds the first of a run of words that differs from the one in `seen`, and puts it there.
#[tactic(auto, unfolding(crate::specs::Held::value_in))]
#[unsafe(no_mangle)]
pub extern "C" fn df1_end_changed(
    alloc: Global,
    end: &mut Seat,
    file: u16,
    first: u32,
    seen: &mut [u16],
    place: &mut usize,
) -> u32
    ensures code { result ≡ code_number (code_at (holding end.old) (λ node. range_code node file first (length seen.old))) }
    ensures same { holding end.new ≡ holding end.old }
    ensures place { place.new ≡ told_at (holding end.old) (λ node. change_told node file first seen.old) place.old }
    ensures seen { seen.new ≡ told_at (holding end.old) (λ node. seen_told node file first seen.old) seen.old }
{
    let Some(held) = end.take(alloc) else {
        return Code::NoHandle.number();
    };
    let code = tell_change(&held, file, first, seen, place);
    *end = Seat::of(held);
    code.number()
}

/// Sets a run of words, as a program in the controller would: all of them or none.
#[tactic(auto, unfolding(crate::specs::Held::value_in))]
#[unsafe(no_mangle)]
pub extern "C" fn df1_end_set_words(
    alloc: Global,
    end: &mut Seat,
    file: u16,
    first: u32,
    values: &[u16],
) -> u32
    ensures code { result ≡ code_number (code_at (holding end.old) (λ node. range_code node file first (length values.now))) }
    ensures after { holding end.new ≡ option_map (with_change (words_set file first values.now)) (holding end.old) }
    ensures stands { (check : CheckKind) (bytes : List ℕ) → IsEndFor check bytes (holding end.old) → IsEndFor check bytes (holding end.new) }
{
    let Some(mut held) = end.take(alloc) else {
        return Code::NoHandle.number();
    };
    let code = set_words(&mut held, file, first, values);
    *end = Seat::of(held);
    code.number()
}

/// Locks data files, and unlocks all others: no command of the line may write a locked file.
#[tactic(auto, unfolding(crate::specs::Held::value_in))]
#[unsafe(no_mangle)]
pub extern "C" fn df1_end_lock(alloc: Global, end: &mut Seat, files: &[u16]) -> u32
    ensures code { result ≡ code_number (code_at (holding end.old) (λ node. lock_code node files.now)) }
    ensures after { holding end.new ≡ option_map (with_change (files_locked files.now)) (holding end.old) }
    ensures stands { (check : CheckKind) (bytes : List ℕ) → IsEndFor check bytes (holding end.old) → IsEndFor check bytes (holding end.new) }
{
    let Some(mut held) = end.take(alloc) else {
        return Code::NoHandle.number();
    };
    let code = lock(&mut held, files);
    *end = Seat::of(held);
    code.number()
}

/// Reports the number of data files of the end.
#[tactic(auto, unfolding(crate::specs::Held::value_in))]
#[unsafe(no_mangle)]
pub extern "C" fn df1_end_files(alloc: Global, end: &mut Seat, count: &mut u32) -> u32
    ensures code { result ≡ code_number (end_code (holding end.old)) }
    ensures same { holding end.new ≡ holding end.old }
    ensures told { count.new ≡ told_at (holding end.old) (λ node. Some (file_count node)) count.old }
{
    let Some(held) = end.take(alloc) else {
        return Code::NoHandle.number();
    };
    let code = tell_files(&held, count);
    *end = Seat::of(held);
    code.number()
}

/// Reports the data file at a place.
#[tactic(auto, unfolding(crate::specs::Held::value_in))]
#[unsafe(no_mangle)]
pub extern "C" fn df1_end_file(
    alloc: Global,
    end: &mut Seat,
    place: u32,
    file: &mut FileParts,
) -> u32
    ensures code { result ≡ code_number (code_at (holding end.old) (λ node. file_code node place)) }
    ensures same { holding end.new ≡ holding end.old }
    ensures told { file.new ≡ told_at (holding end.old) (λ node. file_at node place) file.old }
{
    let Some(held) = end.take(alloc) else {
        return Code::NoHandle.number();
    };
    let code = tell_file(&held, place, file);
    *end = Seat::of(held);
    code.number()
}
