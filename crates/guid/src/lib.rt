// Tables of identifiers, each as its 16 stored bytes.
#![tactic(auto)]

ghost use Rattle.std.specs.Prelude.{◌≡◌, ◌<◌, nat_eq, length};
ghost use Rattle.field.specs.Fields.{number};
ghost use Rattle.guid.specs.Stored.{identifier_in, row_of};

use field::Guid;

// Row k of the table is the identifier.
pub fn is_row(table: &[[u8; 16]], k: usize, id: Guid) -> bool
    requires { k < length table.now }
    ensures { result ≡ nat_eq (identifier_in table.now k) (number id) }
{
    field::guid_is(&table[k], 0, id)
}

// The first row that is the identifier.
pub fn row(table: &[[u8; 16]], id: Guid) -> Option<usize>
    ensures { result ≡ row_of table.now (number id) }
{
    (0..table.len()).find(|k| is_row(table, *k, id))
}
