//! A test of a node that is made by the plan of an end.

use crate::equal::is;
use df1_base::FileType;
use df1_node::FileSpec;
use end_settings::{EndKey, Setting, Settings};
use outset::node_of;
use script_parts::{EndPlan, WordOf};
use script_statement::{Items, Who};
use std::test::Fail;

#[test]
fn a_node_has_the_first_words_of_its_plan(rt: HostRuntime) -> Result<(), Fail> {
    let mut files = Items::new(rt.alloc());
    files.push(FileSpec {
        number: 7,
        kind: FileType::Integer,
        count: 2,
    })?;
    let mut words = Items::new(rt.alloc());
    words.push(WordOf {
        who: Who::B,
        file: 7,
        index: 1,
        value: 0x12AB,
    })?;
    let mut settings = Settings::new();
    settings.set(Setting {
        key: EndKey::Tns,
        value: Some(9),
    });
    let block = Items::new(rt.alloc());
    let plan = EndPlan::new(Who::B, 1, &settings, None, block, files, words);
    let node = node_of(rt.alloc(), &plan)?;
    let tables = node.tables();
    let words = [tables.word(7, 0), tables.word(7, 1), tables.word(7, 2)];
    is(&rt, words, [Some(0), Some(0x12AB), None]);
    is(&rt, node.initiator().outcome(1), None);
    Ok(())
}
