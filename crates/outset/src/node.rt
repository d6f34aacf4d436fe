//! The node of an end.

ghost use Rattle.std.specs.Prelude.{◌≡◌, IfOk};
ghost use Rattle.script_parts.specs.Playable.{IsPlanOf};
ghost use Rattle.outset.specs.Outset.{first_node, first_station, first_tables, with_all};

use df1_base::NoMemory;
use df1_node::{Node, NodeSetup, Station, Tables};
use script_parts::{EndPlan, WordOf};
use std::alloc::Global;

/// Makes the node of the end of a plan: its data files with the first values of their words, and no command issued. The
/// error is want of memory.
pub fn node_of(alloc: Global, plan: &EndPlan) -> Result<Node, NoMemory>
    requires { IsPlanOf plan.now.who plan.now }
    ensures { IfOk result (λ node. node ≡ first_node plan.now) }
{
    let setup = NodeSetup {
        node: plan.node,
        tns: plan.tns,
        reply_ticks: plan.reply_ticks,
        room: plan.room,
        window: plan.window,
        per_source: plan.per_source,
    };
    Node::new(alloc, setup, station_of(alloc, plan)?)
}

/// Makes the station of an end.
fn station_of(alloc: Global, plan: &EndPlan) -> Result<Station, NoMemory>
    requires { IsPlanOf plan.now.who plan.now }
    ensures { IfOk result (λ station. station ≡ first_station plan.now) }
{
    let tables = tables_of(alloc, plan)?;
    Ok(Station::new(tables, plan.compat, plan.block.as_slice()))
}

/// Makes the data tables of an end: its files, with the first values of their words.
fn tables_of(alloc: Global, plan: &EndPlan) -> Result<Tables, NoMemory>
    requires { IsPlanOf plan.now.who plan.now }
    ensures { IfOk result (λ tables. tables ≡ first_tables plan.now) }
{
    let mut tables = Tables::zeroed(alloc, plan.files.as_slice())?;
    set_words(&mut tables, plan.words.as_slice());
    Ok(tables)
}

/// Sets words to their first values.
fn set_words(tables: &mut Tables, words: &[WordOf])
    ensures { tables.new ≡ with_all tables.old words.now }
{
    for word in words {
        let _ = tables.set(word.file, word.index, word.value);
    }
}
