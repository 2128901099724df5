//! Lists of numbers as a text has them, one after another.
use rp_num::Seq;
use std::alloc::Global;
use std::test::Fail;

/// Whole numbers, and how many of them were taken.
#[derive(Drop)]
pub(crate) struct Numbers {
    list: Vec<i128>,
    at: usize,
}

impl Numbers {
    /// The numbers of a text, between blanks.
    pub(crate) fn of(alloc: Global, text: &str) -> Result<Numbers, Fail> {
        let mut list = Vec::new(alloc);
        for word in text.split_whitespace() {
            list.push(word.parse::<i128>()?)?;
        }
        Ok(Numbers { list, at: 0 })
    }

    /// The next number, and 0 after the last.
    pub(crate) fn next(&mut self) -> i128 {
        let Some(number) = self.list.as_slice().get(self.at).copied() else {
            return 0;
        };
        self.at += 1;
        number
    }

    /// The next number as one of a list, an observation or a column.
    pub(crate) fn next_u32(&mut self) -> u32 {
        u32::try_from(self.next()).unwrap_or(0)
    }

    /// The next number as a part of a fraction or a weight.
    pub(crate) fn next_u64(&mut self) -> u64 {
        u64::try_from(self.next()).unwrap_or(0)
    }

    /// A list: how many numbers it has, and these.
    pub(crate) fn list_u32(&mut self, alloc: Global) -> Result<Seq<u32>, Fail> {
        let mut list = Vec::new(alloc);
        for _ in 0..self.next_u32() {
            list.push(self.next_u32())?;
        }
        Ok(Seq::from_vec(list))
    }

    /// A list of longer numbers: how many it has, and these.
    pub(crate) fn list_u64(&mut self, alloc: Global) -> Result<Seq<u64>, Fail> {
        let mut list = Vec::new(alloc);
        for _ in 0..self.next_u32() {
            list.push(self.next_u64())?;
        }
        Ok(Seq::from_vec(list))
    }

    /// A list of the longest numbers: how many it has, and these.
    pub(crate) fn list_i128(&mut self, alloc: Global) -> Result<Seq<i128>, Fail> {
        let mut list = Vec::new(alloc);
        for _ in 0..self.next_u32() {
            list.push(self.next())?;
        }
        Ok(Seq::from_vec(list))
    }
}
