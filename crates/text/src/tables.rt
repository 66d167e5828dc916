// Tables of names.
ghost use Rattle.std.specs.Prelude.{◌≡◌, find};
ghost use Rattle.std.specs.Option.{option_map};
ghost use Rattle.std.specs.Str.{bytes_eq};

// What the table has the name for.
pub fn find<C: Copy>(table: &[(&[u8], C)], name: &[u8]) -> Option<C>
    ensures { result ≡ option_map (λ row. row.1) (find (λ row. bytes_eq row.0.now name.now) table.now) }
{
    table.iter().find(|row| row.0 == name).map(|row| row.1)
}
