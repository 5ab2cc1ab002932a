//! The runtime of a `main`.

/// The runtime of a `main`, which opens files: a function outside `main` names its threads by a type parameter alone.
pub trait Host {
    fn host(&self) -> &HostRuntime;
}

impl Host for HostRuntime {
    fn host(&self) -> &HostRuntime {
        self
    }
}
