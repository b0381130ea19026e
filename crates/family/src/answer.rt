// What calls answered, as the lines show it.
use bounds::Bounds;
use scheme::Cause;
use std::fmt;

// OK and the figures that were answered, or NO and the number of the cause. The space and the word behind it are one piece of `console::Output`.
#[derive(Clone, Copy)]
pub struct Answer<const N: usize>(pub Result<[u64; N], Cause>);

impl<const N: usize> fmt::Display for Answer<N> {
    // The figures behind the word, each behind a space.
    fn fmt<W: fmt::Write>(&self, f: &mut fmt::Formatter<W>) -> fmt::Result {
        match self.0 {
            Ok(figures) => {
                write!(f, " OK")?;
                for figure in figures {
                    write!(f, " {figure}")?;
                }
                Ok(())
            }
            Err(cause) => write!(f, " NO {}", cause.number()),
        }
    }
}

// Whether a call was answered, with no figures.
pub fn passed<T: Copy>(answer: Result<T, Cause>) -> Answer<0> {
    Answer(answer.map(|_| []))
}

// The low and the high bound that a call answered.
pub fn bounds_of(answer: Result<Bounds, Cause>) -> Answer<2> {
    Answer(answer.map(|bounds| [bounds.low, bounds.high]))
}

// The length of what a call wrote. By `as`: there is no `From` between `usize` and `u64`.
pub fn length_of(answer: Result<usize, Cause>) -> Answer<1> {
    Answer(answer.map(|length| [length as u64]))
}
