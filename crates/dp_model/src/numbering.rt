// Joint numbers: one number for one part of each agent, mixed radix with agent 0 most significant.
ghost use Rattle.std.specs.Prelude.{◌≡◌, ◌<◌, ◌≤◌, length, slice_index};
ghost use Rattle.dp_spec.specs.JointNumbers.{joint_number, product};
ghost use Rattle.dp_model.specs.Parts.{AreParts, part_of};

use crate::Sequence;

const MOST_AGENTS: usize = 6;

/// How many parts each agent has, with what numbering them together needs.
#[derive(Drop)]
pub struct Numbering {
    sizes: Sequence<u32>,
    count: u32,
    // By how much the joint number grows with each agent's part.
    steps: [u32; MOST_AGENTS],
}

impl std::marker::Model for Numbering {
    ghost use Rattle.std.specs.Prelude.{ℕ, List};
    ghost use Rattle.dp_model.specs.Parts.{IsNumbering};

    ghost Value = { List ℕ };

    ghost view = { λ n. n.sizes };

    ghost invariant = { λ n. IsNumbering n.sizes n.count n.steps };
}

impl Numbering {
    /// The numbering of these many parts for each agent. It takes no memory.
    pub fn new(sizes: Sequence<u32>) -> Numbering
        requires agents { length sizes ≤ 6 }
        requires some { 0 < product sizes }
        requires limit { product sizes ≤ 256 }
        ensures { result ≡ sizes }
    {
        let mut steps = [1; MOST_AGENTS];
        let mut count = 1;
        let mut agent = sizes.as_slice().len();
        while agent > 0 {
            agent -= 1;
            steps[agent] = count;
            count *= sizes.as_slice()[agent];
        }
        Numbering {
            sizes,
            count,
            steps,
        }
    }

    /// How many agents there are.
    #[inline]
    pub fn agents(&self) -> u32
        ensures is { result ≡ length self.now }
        ensures limit { result ≤ 6 }
    {
        self.sizes.as_slice().len() as u32
    }

    /// How many parts agent `i` has.
    #[inline]
    pub fn size(&self, i: u32) -> u32
        requires { i < length self.now }
        ensures { result ≡ slice_index self.now i }
    {
        self.sizes.as_slice()[i as usize]
    }

    /// How many joint numbers there are.
    #[inline]
    pub fn count(&self) -> u32
        ensures is { result ≡ product self.now }
        ensures limit { result ≤ 256 }
    {
        self.count
    }

    /// Agent `i`'s part of a joint number.
    #[inline]
    pub fn part(&self, number: u32, i: u32) -> u32
        requires number { number < product self.now }
        requires agent { i < length self.now }
        ensures { result ≡ part_of self.now number i }
    {
        number / self.steps[i as usize] % self.sizes.as_slice()[i as usize]
    }

    /// The joint number of one part for each agent.
    #[inline]
    pub fn number_of(&self, parts: &[u32]) -> u32
        requires { AreParts self.now parts.now }
        ensures { result ≡ joint_number self.now parts.now }
    {
        let mut number = 0;
        for (i, part) in parts.iter().enumerate() {
            number += *part * self.steps[i];
        }
        number
    }
}
