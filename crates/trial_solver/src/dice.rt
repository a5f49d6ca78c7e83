// Numbers drawn by a written-out generator, which another program can draw as well.
use parts::{Mark, Side};
use std::alloc::{AllocError, Global};

// A linear congruential generator of 64 bits, of which the upper ones are told.
#[derive(Clone, Copy)]
pub struct Dice {
    state: u64,
}

impl Dice {
    // The generator that starts with a seed.
    pub fn new(seed: u64) -> Dice {
        Dice { state: seed }
    }

    // The next number below a bound; 0 below the bound 0.
    pub fn below(&mut self, bound: usize) -> usize {
        self.state = self
            .state
            .wrapping_mul(6_364_136_223_846_793_005)
            .wrapping_add(1_442_695_040_888_963_407);
        let upper = (self.state >> 33) as usize;
        upper.checked_rem(bound).unwrap_or(0)
    }

    // Marks of so many of the parts 1 to n, by rising part.
    pub fn marks(&mut self, heap: Global, n: usize, count: usize) -> Result<Vec<Mark>, AllocError> {
        let mut marks = Vec::new(heap);
        for part in 1..=n {
            let left = n.saturating_sub(part).saturating_add(1);
            let wanted = count.saturating_sub(marks.len());
            if self.below(left) < wanted {
                marks.push(Mark {
                    part,
                    side: self.side(),
                })?;
            }
        }
        Ok(marks)
    }

    // Either side.
    fn side(&mut self) -> Side {
        if self.below(2) == 0 {
            Side::In
        } else {
            Side::Out
        }
    }
}
