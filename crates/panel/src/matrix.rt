// The key matrix: eleven columns by six rows with pull-ups; a closed contact in a selected column pulls its row low.
ghost use Rattle.std.specs.Prelude.{◌≡◌, ◌<◌};
ghost use Rattle.panel.specs.Matrix.{
  row_bit,
  keys_in,
  contacts_in,
  closed_in,
  closed_rows,
  pa_in,
  pb_in,
};

use crate::map::Map;
use keys::is_down;

fn row_bit(row: u8) -> u32
    ensures { result ≡ row_bit row }
{
    if row < 6 {
        return 1u32 << row;
    }
    0
}

// The rows that keys close in a column.
fn keys_in(ids: &[u8; 66], down: u64, col: usize) -> u32
    requires { col < 11 }
    ensures { result ≡ keys_in ids.now down col }
{
    let mut rows: u32 = 0;
    for row in 0..6 {
        rows |= base::when(is_down(down, ids[row * 11 + col]), row_bit(row as u8));
    }
    rows
}

// The rows that encoders' contacts close in a column.
fn contacts_in(contacts: &[u8; 28], closed: u32, col: usize) -> u32
    requires { col < 11 }
    ensures { result ≡ contacts_in contacts.now closed col }
{
    let mut rows: u32 = 0;
    for k in 0..14 {
        let here = (contacts[k * 2] == (col as u8)) & ((closed >> k) % 2 == 1);
        rows |= base::when(here, row_bit(contacts[k * 2 + 1]));
    }
    rows
}

// The rows that are closed, given the keys that are down and the encoders' closed contacts (`encs_closed`).
pub fn closed_rows(map: Map, down: u64, closed: u32, latched: u16) -> u32
    ensures { result ≡ closed_rows map down closed latched }
{
    let mut rows: u32 = 0;
    for col in 0..11 {
        rows |= closed_in(map, down, closed, latched, col);
    }
    rows
}

fn closed_in(map: Map, down: u64, closed: u32, latched: u16, col: usize) -> u32
    requires { col < 11 }
    ensures { result ≡ closed_in map down closed latched col }
{
    if (latched >> col) % 2 == 0 {
        return keys_in(&map.ids, down, col) | contacts_in(&map.contacts, closed, col);
    }
    0
}

// What ports A and B read for those rows.
pub fn pa_in(out: u32, rows: u32) -> u32
    ensures { result ≡ pa_in out rows }
{
    (out | 0xffff) & !(rows % 2 + (rows >> 1) % 16 * 32)
}

pub fn pb_in(rows: u32) -> u32
    ensures { result ≡ pb_in rows }
{
    0xffff - (rows >> 5) % 2 * 128
}
