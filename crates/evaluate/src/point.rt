// The point of a place.
ghost use Rattle.std.specs.Prelude.{◌≡◌, length};
ghost use Rattle.field.specs.Fp.{fp};
ghost use Rattle.multilinear.specs.Weight.{bits};

// Fills a side's coordinates with the bits of a number, lowest first.
pub(crate) fn bits(a: u32, coordinates: &mut [u32])
    ensures { coordinates.new ≡ bits fp (length coordinates.old) a }
{
    let mut rest = a;
    for coordinate in coordinates.iter_mut() {
        *coordinate = rest % 2;
        rest /= 2;
    }
}
