// What the exchange answers, and bytes, as they are printed.
use file::Refusal;
use std::fmt;

// The length that the exchange wrote, or its refusal.
#[derive(Clone, Copy)]
pub struct Exchanged(pub Result<usize, Refusal>);

impl fmt::Display for Exchanged {
    fn fmt<W: fmt::Write>(&self, f: &mut fmt::Formatter<W>) -> fmt::Result {
        match self.0 {
            Ok(length) => write!(f, "{length}"),
            Err(refusal) => write!(f, "REFUSED {refusal}"),
        }
    }
}

// Up to 512 bytes are printed in full, two hexadecimal digits each, more by their sums.
#[derive(Clone, Copy)]
pub struct Bytes<'a>(pub &'a [u8]);

impl<'a> fmt::Display for Bytes<'a> {
    fn fmt<W: fmt::Write>(&self, f: &mut fmt::Formatter<W>) -> fmt::Result {
        let row = self.0;
        if row.len() > 512 {
            let sums = Sums::of(row);
            return write!(f, "{sums}");
        }
        for byte in row {
            write!(f, "{byte:02x}")?;
        }
        Ok(())
    }
}

// The sum of the bytes, and the sum of all the sums on the way, both as remainders by 65521.
#[derive(Clone, Copy)]
struct Sums {
    plain: u64,
    weighted: u64,
}

impl Sums {
    fn of(row: &[u8]) -> Sums {
        let mut plain: u64 = 0;
        let mut weighted: u64 = 0;
        for byte in row {
            plain = (plain + u64::from(*byte)) % 65521;
            weighted = (weighted + plain) % 65521;
        }
        Sums { plain, weighted }
    }
}

impl fmt::Display for Sums {
    fn fmt<W: fmt::Write>(&self, f: &mut fmt::Formatter<W>) -> fmt::Result {
        write!(f, "sums {} {}", self.plain, self.weighted)
    }
}
