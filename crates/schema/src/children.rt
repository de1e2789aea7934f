// The schema that a child id names.
ghost use Rattle.std.specs.Prelude.{◌≡◌, ◌≤◌};
ghost use Rattle.tree.specs.Schemas.{child_number};
ghost use Rattle.tree.specs.Table.{id_in, schemas_in};
ghost use Rattle.schema.specs.Children.{told_child};

use crate::MOST_FILE_COLUMNS;
use crate::slot::ID;

// The child id in the slot of a schema.
pub fn id_in(slot: u64) -> u64
    ensures { result ≡ id_in slot }
{
    slot / ID
}

// The number of the schema with a child id, where a table has so many schemas.
pub fn child_number(table: &[u64; 512], schemas: usize, id: u64) -> Option<usize>
    ensures { 1 ≤ schemas → schemas ≤ 256 → told_child result ≡ child_number (schemas_in 0 schemas table.now) id }
{
    if MOST_FILE_COLUMNS < schemas {
        return None;
    }
    (1..schemas).find(|k| id_in(table[MOST_FILE_COLUMNS + *k]) == id)
}
