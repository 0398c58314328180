use hci_tables::Tables;
use std::alloc::{AllocError, Global};
use std::marker::Model;

/// The tables of a node, on the heap. Contracts see them as the tables.
#[derive(Drop)]
pub struct NodeTables {
    pub boxed: Box<Tables>,
}

impl Model for NodeTables {
    ghost use Rattle.hci_tables.specs.Tables.{HciTables};

    ghost Value = { HciTables };

    ghost view = { λ tables. tables.boxed.value };
}

impl NodeTables {
    ghost use Rattle.std.specs.Prelude.{◌≡◌, IfOk};

    /// The tables, which go to the heap.
    pub fn new(alloc: Global, tables: Tables) -> Result<NodeTables, AllocError>
        ensures { IfOk result (λ kept. kept ≡ tables) }
    {
        Ok(NodeTables {
            boxed: Box::new(alloc, tables)?,
        })
    }

    /// The tables.
    pub fn tables(&self) -> &Tables
        ensures { result.now ≡ self.now }
    {
        self.boxed.as_ref()
    }
}

impl PartialEq for NodeTables {
    ghost use Rattle.hci_tables.specs.contracts.tables.TablesPartialEq.TheImpl.Laws.{laws-law};

    ghost eq = { ⟦<Tables as PartialEq>⟧.eq };

    ghost laws = { laws-law };

    fn eq(&self, other: &Self) -> bool {
        self.tables() == other.tables()
    }
}

impl Eq for NodeTables {
    ghost use Rattle.hci_tables.specs.contracts.tables.TablesEq.TheImpl.Laws.{laws-law};

    ghost laws = { laws-law };
}
