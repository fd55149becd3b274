//! The groups of a document.
ghost use Rattle.std.specs.Prelude.{◌≡◌, [], ◌∷◌, ◌++◌, codes, option_map, IfOk, OnOk};
ghost use Rattle.toml.specs.View.{view, items_view, table_view};
ghost use Rattle.scenario_form.specs.Forms.{values_in};
ghost use Rattle.scenario_form.specs.Values.{list_at};
ghost use Rattle.scenario_form.specs.Walk.{groups_of};

use crate::values::{array_at, nodes_in};
use sim_base::{NodeId, Sequence};
use std::alloc::{AllocError, Global};
use toml::{Table, Value};

fn push_group(
    alloc: Global,
    groups: &mut Vec<Sequence<NodeId>>,
    value: &Value,
) -> Result<(), AllocError>
    ensures { OnOk result (groups.new.items ≡ groups.old.items ++ groups_of (view value.now ∷ [])) }
{
    match value.as_array() {
        None => Ok(()),
        Some(array) => {
            let nodes = nodes_in(alloc, array.as_slice())?;
            groups.push(Sequence::from_vec(nodes))?;
            Ok(())
        }
    }
}

fn groups_in(alloc: Global, values: &[Value]) -> Result<Sequence<Sequence<NodeId>>, AllocError>
    ensures { IfOk result (λ g. g ≡ groups_of (values_in (items_view values.now))) }
{
    let mut groups = Vec::new(alloc);
    for value in values {
        push_group(alloc, &mut groups, value)?;
    }
    Ok(Sequence::from_vec(groups))
}

/// The groups of a document, if it has the key.
pub fn groups_at(
    alloc: Global,
    document: &Table,
) -> Result<Option<Sequence<Sequence<NodeId>>>, AllocError>
    ensures { IfOk result (λ g. g ≡ option_map groups_of (list_at (codes "groups") (table_view document.now))) }
{
    match array_at(document, "groups") {
        None => Ok(None),
        Some(array) => Ok(Some(groups_in(alloc, array.as_slice())?)),
    }
}
