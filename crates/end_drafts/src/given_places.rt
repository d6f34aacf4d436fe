//! Which places of words of an end have been set: a table with a mark for each.
ghost use Rattle.std.specs.Prelude.{◌≡◌, ◌+◌, ◌<◌, ◌≤◌, ◌^◌, ◌==◌, ◌||◌, ℕ, [], map, false, slice_index_or, vec_len, OnOk, OnErr};
ghost use Rattle.end_drafts.specs.Places.{AreSame, HasMore, is_marked};

use df1_base::NoMemory;
use std::alloc::Global;
use std::marker::Model;

/// Places: the number of a file, and the index of a word in it. Contracts see a row for each file, with a mark for each
/// word.
#[derive(Drop)]
pub(crate) struct GivenPlaces {
    alloc: Global,
    rows: Vec<Vec<bool>>,
}

impl Model for GivenPlaces {
    ghost use Rattle.std.specs.Prelude.{List, Bool, map};

    ghost Value = { List (List Bool) };

    ghost view = { λ p. map (λ row. row.items) p.rows.items };
}

impl GivenPlaces {
    /// Returns no places.
    pub fn new(alloc: Global) -> Self
        ensures { result ≡ [] }
    {
        GivenPlaces {
            alloc,
            rows: Vec::new(alloc),
        }
    }

    /// Returns whether a place was set.
    pub fn has(&self, file: u16, index: u32) -> bool
        ensures { result ≡ is_marked self.now file index }
    {
        match self.rows.get(usize::from(file)) {
            Some(row) => is_set(row, index as usize),
            None => false,
        }
    }

    /// Marks a place as set. Without memory for its mark, the same places are set as before.
    pub fn give(&mut self, file: u16, index: u32) -> Result<(), NoMemory>
        ensures ok { OnOk result (HasMore self.old self.new file index) }
        ensures err { OnErr result (AreSame self.old self.new) }
    {
        let file = usize::from(file);
        add_rows(&mut self.rows, self.alloc, file + 1)?;
        let row = &mut self.rows[file];
        set(row, index as usize)
    }
}

/// Returns whether the mark of an index is set.
fn is_set(row: &[bool], index: usize) -> bool
    ensures { result ≡ slice_index_or row.now index false }
{
    match row.get(index) {
        Some(mark) => *mark,
        None => false,
    }
}

/// Adds rows without marks up to this count.
fn add_rows(rows: &mut Vec<Vec<bool>>, alloc: Global, count: usize) -> Result<(), NoMemory>
    ensures reached { OnOk result (count ≤ vec_len rows.new) }
    ensures same { AreSame (map (λ row. row.items) rows.old.items) (map (λ row. row.items) rows.new.items) }
{
    while rows.len() < count {
        rows.push(Vec::new(alloc))?;
    }
    Ok(())
}

/// Sets the mark of an index.
fn set(row: &mut Vec<bool>, index: usize) -> Result<(), NoMemory>
    requires { index < 2 ^ 32 }
    ensures ok { OnOk result ((i : ℕ) → slice_index_or row.new.items i false ≡ (slice_index_or row.old.items i false || (index == i))) }
    ensures err { OnErr result (row.new.items ≡ row.old.items) }
{
    if row.len() <= index {
        row.resize(index + 1, false)?;
    }
    row[index] = true;
    Ok(())
}
