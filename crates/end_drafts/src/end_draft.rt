//! What the lines so far say of one end, and what may be wrong with a further line of it.
ghost use Rattle.std.specs.Prelude.{◌≡◌, ◌-◌, [], Ok, Err, IfOk, MatchResult, OnOk, unwrap_or};
ghost use Rattle.end_drafts.specs.declared.flaw.Flaw.{Flaw as TheFlaw};
ghost use Rattle.end_drafts.specs.Drafts.{after_word, fresh_end, node_of as the_node, plan_of as the_plan, declared as the_declared, lacks as the_lacks, exceeds as the_exceeds, repeats as the_repeats, with_line};
ghost use Rattle.end_drafts.specs.Flaws.{IsFlawed};

use crate::flaw::{Flaw, StatementFault};
use crate::given_files::GivenFiles;
use crate::given_words::GivenWords;
use data_files::{FileSpec, MAX_FILES};
use df1_base::NoMemory;
use end_settings::{EndKey, Role, Settings};
use script_parts::{EndPlan, WordOf};
use script_statement::{Bytes, Items, SetupStatement, Who};
use std::alloc::Global;

/// The most commands of an end.
const COMMANDS: u32 = 65_535;

/// What is known of an end.
#[derive(Drop)]
pub struct EndDraft {
    pub settings: Settings,
    pub compat: Option<u16>,
    pub block: Option<Bytes>,
    pub files: GivenFiles,
    pub words: GivenWords,
    /// The number of commands it may still issue.
    pub commands_left: u32,
}

impl EndDraft {
    /// Returns an end of which no line said anything.
    pub fn new(alloc: Global) -> Self
        ensures { result ≡ fresh_end }
    {
        EndDraft {
            settings: Settings::new(),
            compat: None,
            block: None,
            files: GivenFiles::new(alloc),
            words: GivenWords::new(alloc),
            commands_left: COMMANDS,
        }
    }

    /// Returns whether a line names a key that an end of this kind doesn't have, or a file that isn't declared.
    pub fn lacks(&self, role: Role, line: &SetupStatement) -> bool
        ensures { result ≡ the_lacks role self.now line.now }
    {
        match line {
            SetupStatement::Set(setting) => !setting.key.roles().has(role),
            SetupStatement::Compat(Some(file)) | SetupStatement::Word { file, .. } => {
                self.declared(*file).is_none()
            }
            SetupStatement::Compat(None) | SetupStatement::Block(_) | SetupStatement::File(_) =>
                false,
        }
    }

    /// Returns whether a number, a word or a length of a line is out of its range, or a compatibility file is of
    /// another type than bit or integer.
    pub fn exceeds(&self, line: &SetupStatement) -> bool
        ensures { result ≡ the_exceeds self.now line.now }
    {
        match line {
            SetupStatement::Set(setting) => setting.value.is_none(),
            SetupStatement::Compat(None) => true,
            SetupStatement::Compat(Some(file)) => match self.declared(*file) {
                Some(spec) => !spec.holds_words(),
                None => false,
            },
            SetupStatement::Block(bytes) => bytes.is_none(),
            SetupStatement::File(spec) => spec.is_none() || self.files.len() >= MAX_FILES,
            SetupStatement::Word { file, index, .. } => match self.declared(*file) {
                Some(spec) => spec.words() <= *index,
                None => false,
            },
        }
    }

    /// Returns whether an earlier line set the key, the file or the word.
    pub fn repeats(&self, line: &SetupStatement) -> bool
        ensures { result ≡ the_repeats self.now line.now }
    {
        match line {
            SetupStatement::Set(setting) => self.settings.value(setting.key).is_some(),
            SetupStatement::Compat(_) => self.compat.is_some(),
            SetupStatement::Block(_) => self.block.is_some(),
            SetupStatement::File(Some(spec)) => self.files.has(spec.number),
            SetupStatement::Word {
                file: Some(file),
                index,
                ..
            } => self.words.has(*file, *index),
            SetupStatement::File(None) | SetupStatement::Word { file: None, .. } => false,
        }
    }

    /// Accepts a line of the end `who`. If there is no memory for it, the draft may only be dropped.
    pub fn take(&mut self, who: Who, line: SetupStatement) -> Result<(), NoMemory>
        ensures { OnOk result (self.new ≡ with_line who self.old line) }
    {
        match line {
            SetupStatement::Set(setting) => self.settings.set(setting),
            SetupStatement::Compat(Some(Some(file))) => self.compat = Some(file),
            SetupStatement::Block(Some(bytes)) => self.block = Some(bytes),
            SetupStatement::File(Some(spec)) => self.files.push(spec)?,
            SetupStatement::Word {
                file: Some(file),
                index,
                value,
            } => self.words.push(WordOf {
                who,
                file,
                index,
                value,
            })?,
            _ => {}
        }
        Ok(())
    }

    /// Accepts a line that sets the first value of a word, as by `take`, if nothing is wrong with it. Otherwise returns
    /// the first flaw: `Missing` if no line declares the file, `Value` if the file doesn't have the word, `Twice` if an
    /// earlier line set the word. A refused line takes no memory.
    pub fn take_word(&mut self, word: WordOf) -> Result<(), StatementFault>
        ensures refused { (flaw : TheFlaw) → after_word self.old word ≡ Err flaw → result ≡ Err (StatementFault.Flawed flaw) }
        ensures value { MatchResult result (λ _. after_word self.old word ≡ Ok self.new) (λ fault. IsFlawed fault (after_word self.old word)) }
    {
        let Some(spec) = self.files.file(word.file) else {
            return Err(StatementFault::Flawed(Flaw::Missing));
        };
        if spec.words() <= word.index {
            return Err(StatementFault::Flawed(Flaw::Value));
        }
        if self.words.has(word.file, word.index) {
            return Err(StatementFault::Flawed(Flaw::Twice));
        }
        Ok(self.words.push(word)?)
    }

    /// Counts a command of the end.
    pub fn count_command(&mut self)
        ensures { self.new ≡ record self.old { commands_left = self.old.commands_left - 1 } }
    {
        self.commands_left = self.commands_left.saturating_sub(1);
    }

    /// Returns the address of the end, which is `standard` if no line sets it.
    pub fn node(&self, standard: u8) -> u8
        ensures { result ≡ the_node self.now standard }
    {
        self.settings.chosen(EndKey::Node, standard) as u8
    }

    /// Returns the declared file that a line names.
    fn declared(&self, file: Option<u16>) -> Option<FileSpec>
        ensures { result ≡ the_declared self.now file }
    {
        self.files.file(file?)
    }

    /// Returns the plan of the end, whose address is `standard` if no line sets it.
    pub fn plan(&self, alloc: Global, who: Who, standard: u8) -> Result<EndPlan, NoMemory>
        ensures { IfOk result (λ plan. plan ≡ the_plan who standard self.now) }
    {
        let block = block_of(alloc, &self.block)?;
        let files = self.files.copied(alloc)?;
        let words = self.words.copied(alloc)?;
        Ok(EndPlan::new(
            who,
            standard,
            &self.settings,
            self.compat,
            block,
            files,
            words,
        ))
    }
}

/// Returns a copy of a block, which is empty if no line sets one.
fn block_of(alloc: Global, block: &Option<Bytes>) -> Result<Bytes, NoMemory>
    ensures { IfOk result (λ bytes. bytes ≡ unwrap_or block.now []) }
{
    match block {
        Some(bytes) => Items::copy_of(alloc, bytes.as_slice()),
        None => Ok(Items::new(alloc)),
    }
}
