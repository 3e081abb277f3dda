// Columns, schemas and streams.
ghost use Rattle.std.specs.Prelude.{◌≡◌};

use crate::kind::Kind;
use crate::label::Label;
use std::alloc::AllocError;
use std::marker::Model;

/// A column: its name, and what its values are.
#[derive(Drop)]
pub struct ColumnDef {
    pub name: Label,
    pub kind: Kind,
}

/// A copy is the same column.
impl Clone for ColumnDef {
    ghost is_clone = { λ column copy. copy ≡ column };

    fn clone(&self) -> Result<ColumnDef, AllocError> {
        Ok(ColumnDef {
            name: self.name.clone()?,
            kind: self.kind,
        })
    }
}

/// The columns of a stream or of a node, in order.
pub struct Schema {
    columns: Vec<ColumnDef>,
}

// By hand, so that crates that let one go cite this and not the destructors of its parts.
impl Drop for Schema {
    fn drop(self) {
        let Schema { columns: _columns } = self;
    }
}

impl Model for Schema {
    ghost use Rattle.std.specs.Prelude.{List};
    ghost use Rattle.tw_rows.specs.declared.schema.ColumnDef.{ColumnDef as Item};

    ghost Value = { List Item };

    ghost view = { λ s. s.columns.items };
}

impl Schema {
    /// The schema of these columns. It takes no memory.
    pub fn from_vec(items: Vec<ColumnDef>) -> Schema
        ensures { result ≡ items.items }
    {
        Schema { columns: items }
    }

    /// The columns, in order.
    pub fn items(&self) -> &[ColumnDef]
        ensures { result.now ≡ self.now }
    {
        self.columns.as_slice()
    }
}

/// A copy has the same columns.
impl Clone for Schema {
    ghost is_clone = { λ schema copy. copy ≡ schema };

    fn clone(&self) -> Result<Schema, AllocError> {
        Ok(Schema {
            columns: self.columns.clone()?,
        })
    }
}

/// A stream of events: its name, and the columns of its rows.
#[derive(Drop)]
pub struct StreamDef {
    pub name: Label,
    pub schema: Schema,
}

/// A copy is the same stream.
impl Clone for StreamDef {
    ghost is_clone = { λ stream copy. copy ≡ stream };

    fn clone(&self) -> Result<StreamDef, AllocError> {
        Ok(StreamDef {
            name: self.name.clone()?,
            schema: self.schema.clone()?,
        })
    }
}
