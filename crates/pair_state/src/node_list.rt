ghost use Rattle.std.specs.Prelude.{◌≡◌, ◌++◌, [], ◌∷◌, OnOk, OnErr};
ghost use Rattle.std.specs.List.{list_any};
ghost use Rattle.text_model.specs.Id.{has_id};

use bridge_text::{Id, IdList, NoMemory};
use indexmap::IndexSet;
use std::alloc::Global;
use std::marker::Model;

/// A list of nodes, of which each is found at once. Contracts see the list.
pub struct NodeList {
    nodes: IdList,
    set: IndexSet<Id>,
}

impl Drop for NodeList {
    fn drop(self) {
        let NodeList { nodes: _, set: _ } = self;
    }
}

impl Model for NodeList {
    ghost use Rattle.std.specs.Prelude.{◌≡◌, List};
    ghost use Rattle.text_model.specs.Id.{Id, has_id};

    ghost Value = { List Id };

    ghost view = { λ l. l.nodes };

    ghost invariant = { λ l. (id : Id) → has_id l.set.keys id ≡ has_id l.nodes id };
}

impl NodeList {
    /// No nodes.
    pub fn new(alloc: Global) -> NodeList
        ensures { result ≡ [] }
    {
        NodeList {
            nodes: IdList::new(alloc),
            set: IndexSet::new(alloc),
        }
    }

    /// Puts a node at the end. After want of memory the list is as it was.
    pub fn push(&mut self, node: Id) -> Result<(), NoMemory>
        ensures ok { OnOk result (self.new ≡ self.old ++ node ∷ []) }
        ensures err { OnErr result (self.new ≡ self.old) }
    {
        self.set.reserve(1)?;
        self.nodes.push(node)?;
        self.set.insert(node).unwrap();
        Ok(())
    }

    /// Whether the node stands in the list.
    pub fn contains(&self, node: &Id) -> bool
        ensures { result ≡ has_id self.now node.now }
    {
        self.set.contains(node)
    }

    /// Whether one of the nodes stands in the list.
    pub fn contains_any(&self, nodes: &[Id]) -> bool
        ensures { result ≡ list_any (has_id self.now) nodes.now }
    {
        nodes.iter().any(
            |node: &Id| -> bool
                ensures { result ≡ has_id self.entry.now node.now }
            { self.contains(node) },
        )
    }

    /// The nodes in order.
    pub fn as_list(&self) -> &IdList
        ensures { result.now ≡ self.now }
    {
        &self.nodes
    }
}
