// Numbers that stand for their remainders by p, so that a product of many factors is reduced once, at its end, and so is a sum.
ghost use Rattle.std.specs.Prelude.{◌<◌};

// A product of elements: below 2^33 + 2^31.
#[derive(Clone, Copy)]
pub struct Product {
    pub(crate) number: u64,
    pub ghost small: { number < 10737418240 },
}

// A product of two such products, by which values are multiplied: below 2^33.
#[derive(Clone, Copy)]
pub struct Multiplier {
    pub(crate) number: u64,
    pub ghost small: { number < 8589934592 },
}

// A sum of products: any number.
#[derive(Clone, Copy)]
pub struct Sum {
    pub(crate) number: u64,
}
