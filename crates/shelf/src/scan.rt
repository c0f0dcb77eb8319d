// A look through cells for one number, whatever stands there.
ghost use Rattle.std.specs.Prelude.{◌≡◌};
ghost use Rattle.shelf.specs.Compared.{has_cell};

// Whether some cell is `value`; it looks at all of them, which is quicker than to stop.
pub fn has_cell(cells: &[u32], value: u32) -> bool
    ensures { result ≡ has_cell value cells.now }
{
    cells.iter().fold(false, |has, x| has | (*x == value))
}
