//! Bytes that are read from the left.
ghost use Rattle.std.specs.Prelude.{◌≡◌, ◌≤◌, ◌<◌, ◌==◌, false, true, drop, length, take, IfErr, IfOk};
ghost use Rattle.aom_codec.specs.Codec.{byte, next_u16, next_u32, fixed, unused};
ghost use Rattle.aom_codec.specs.Reads.{Reads, ReadsWithin};
ghost use Rattle.aom_codec.specs.declared.fault.LoadFault.TheVariants.{NotZero, Truncated};

use crate::LoadFault;
use byteorder::{BigEndian, ByteOrder};
use std::marker::Model;

/// The bytes that are still to be read. After a fault nothing is said of them.
#[derive(Drop)]
pub struct ByteReader<'a> {
    rest: &'a [u8],
}

impl<'a> Model for ByteReader<'a> {
    ghost use Rattle.std.specs.Prelude.{ℕ, List};

    ghost Value = { List ℕ };

    ghost view = { λ r. r.rest.now };
}

/// Goes on where it holds.
fn require(holds: bool, fault: LoadFault) -> Result<(), LoadFault>
    ensures ok { IfOk result (λ _. holds ≡ true) }
    ensures err { IfErr result (λ e. (holds ≡ false) × (e ≡ fault)) }
{
    if holds { Ok(()) } else { Err(fault) }
}

impl<'a> ByteReader<'a> {
    pub fn new(bytes: &'a [u8]) -> ByteReader<'a>
        ensures { result ≡ bytes.now }
    {
        ByteReader { rest: bytes }
    }

    pub fn is_empty(&self) -> bool
        ensures { result ≡ (length self.now == 0) }
    {
        self.rest.is_empty()
    }

    pub fn byte(&mut self) -> Result<u8, LoadFault>
        ensures { Reads (λ x. (x, self.new)) result (byte.read self.old) }
    {
        match self.rest {
            [] => Err(LoadFault::Truncated),
            [first, rest @ ..] => {
                let first = *first;
                self.rest = rest;
                Ok(first)
            }
        }
    }

    /// The next bytes, so many.
    fn front(&mut self, count: usize) -> Result<&'a [u8], LoadFault>
        ensures there { IfOk result (λ x. (count ≤ length self.old) × (x.now ≡ take count self.old) × (self.new ≡ drop count self.old)) }
        ensures short { IfErr result (λ e. (e ≡ Truncated) × (length self.old < count)) }
    {
        if self.rest.len() < count {
            return Err(LoadFault::Truncated);
        }
        let (front, rest) = self.rest.split_at(count);
        self.rest = rest;
        Ok(front)
    }

    pub fn next_u16(&mut self) -> Result<u16, LoadFault>
        ensures { Reads (λ x. (x, self.new)) result (next_u16.read self.old) }
    {
        Ok(BigEndian::read_u16(self.front(2)?))
    }

    pub fn next_u32(&mut self) -> Result<u32, LoadFault>
        ensures { Reads (λ x. (x, self.new)) result (next_u32.read self.old) }
    {
        Ok(BigEndian::read_u32(self.front(4)?))
    }

    /// A count or a limit.
    pub fn limited_byte(&mut self, low: u8, high: u8) -> Result<u8, LoadFault>
        ensures { ReadsWithin byte low high self.old self.new result }
    {
        let number = self.byte()?;
        require(low <= number && number <= high, LoadFault::LimitPassed)?;
        Ok(number)
    }

    /// A count or a limit.
    pub fn next_u16_at_most(&mut self, low: u16, high: u16) -> Result<u16, LoadFault>
        ensures { ReadsWithin next_u16 low high self.old self.new result }
    {
        let number = self.next_u16()?;
        require(low <= number && number <= high, LoadFault::LimitPassed)?;
        Ok(number)
    }

    /// The number that has to stand here.
    pub fn fixed_byte(&mut self, value: u8, fault: LoadFault) -> Result<(), LoadFault>
        ensures { Reads (λ x. (x, self.new)) result ((fixed byte value fault).read self.old) }
    {
        require(self.byte()? == value, fault)
    }

    /// The number that has to stand here.
    pub fn expect_u16(&mut self, value: u16, fault: LoadFault) -> Result<(), LoadFault>
        ensures { Reads (λ x. (x, self.new)) result ((fixed next_u16 value fault).read self.old) }
    {
        require(self.next_u16()? == value, fault)
    }

    /// The number that has to stand here.
    pub fn expect_u32(&mut self, value: u32, fault: LoadFault) -> Result<(), LoadFault>
        ensures { Reads (λ x. (x, self.new)) result ((fixed next_u32 value fault).read self.old) }
    {
        require(self.next_u32()? == value, fault)
    }

    pub fn unused_pairs(&mut self, count: u8) -> Result<(), LoadFault>
        ensures { Reads (λ x. (x, self.new)) result ((unused count next_u16 NotZero).read self.old) }
    {
        for _ in 0..count {
            self.expect_u16(0, LoadFault::NotZero)?;
        }
        Ok(())
    }
}
