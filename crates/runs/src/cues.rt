// The cues of an answer.
ghost use Rattle.std.specs.Prelude.{◌≡◌};

// Cues in their order: the first `count` cells, or all 64 where it is more. The memory is fixed,
// since an answer owns its cues and there is no heap.
#[derive(Clone, Copy)]
pub struct Cues {
    pub list: [u32; 64],
    pub count: usize,
}

impl Cues {
    ghost use Rattle.runs.specs.Answers.{cues_of};

    pub fn as_slice(&self) -> &[u32]
        ensures { result.now ≡ cues_of self.now }
    {
        &self.list[..self.count.min(64)]
    }
}
