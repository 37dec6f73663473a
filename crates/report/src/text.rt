// Words and numbers in a lent text, each behind what was written before it.
ghost use Rattle.std.specs.Prelude.{◌+◌, length};
ghost use Rattle.report.specs.Inner.{HasRoom, Appended};
ghost use Rattle.report.specs.Text.{labelled};

// A lent text, and how many bytes of it are written.
#[derive(Drop)]
pub(crate) struct Text<'a> {
    pub(crate) bytes: &'a mut [u8],
    pub(crate) at: usize,
}

impl Text<'_> {
    // Writes a label and a number in decimal. Inner: there are places for the label and 20 digits.
    pub(crate) fn labelled(&mut self, label: &[u8], number: u64)
        requires { HasRoom self.old (length label.now + 20) }
        ensures { Appended self.old (labelled label.now number) self.new }
    {
        self.word(label);
        let mut digits = [0u8; 20];
        let count = io::decimal(number, &mut digits);
        self.word(&digits[..count]);
    }

    // Writes some bytes. Inner: there are places for them.
    pub(crate) fn word(&mut self, bytes: &[u8])
        requires { HasRoom self.old (length bytes.now) }
        ensures { Appended self.old bytes.now self.new }
    {
        let end = self.at + bytes.len();
        self.bytes[self.at..end].copy_from_slice(bytes);
        self.at = end;
    }
}
