use std::time::{Duration, Instant};

// The fastest of some times, if there was one.
#[derive(Clone, Copy, Default)]
pub(crate) struct Fastest(Option<Duration>);

impl Fastest {
    // Does some work, and notes how long it took.
    pub(crate) fn time<T: Drop, F: FnOnce() -> T>(
        &mut self,
        rt: &HostRuntime,
        work: F,
    ) -> anyhow::Result<T>
        requires { F.IsAlwaysCallable work }
    {
        let start = Instant::now(rt)?;
        let done = work();
        let time = start.elapsed(rt)?;
        self.0 = Some(self.0.map_or(time, |fastest| fastest.min(time)));
        Ok(done)
    }

    pub(crate) fn nanoseconds(self) -> u128 {
        self.0.map_or(u128::MAX, |time| time.as_nanos())
    }
}
