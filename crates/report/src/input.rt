// The coordinates of an input.
ghost use Rattle.std.specs.Prelude.{◌≡◌, ◌+◌, ◌*◌, ◌≤◌, length, drop};
ghost use Rattle.std.proofs.lemmas.List.Edits.{sets};
ghost use Rattle.report.specs.Input.{numbers_in};

// Reads so many numbers of four bytes, from an offset on, into the first places of a table. Inner: they are there, and the table
// has places for them.
pub(crate) fn numbers(input: &[u8], from: usize, count: usize, table: &mut [u32])
    requires count_in_bounds { from + 4 * count ≤ length input.now }
    requires count_in_bounds_2 { count ≤ length table.old }
    ensures { table.new ≡ sets table.old 0 (numbers_in count (drop from input.now)) }
{
    for i in 0..count {
        table[i] = records::read::four_bytes(input, from + 4 * i);
    }
}
