//! What serves connections.
ghost use Rattle.std.specs.Prelude.{Bool};

/// Serves connections, one after another.
pub trait Serves<C> {
    /// It can serve a connection.
    ghost ready: { Self → Type 0 };

    /// What serving a connection makes of it, whether the disk of the desk was then said to have failed, and what the
    /// servant is left as.
    ghost serves: { Self → C → C → Bool → Self → Type 0 };

    /// Serves a connection. True where the disk of its desk has failed: then it is given no other connection.
    fn serve(&mut self, connection: &mut C) -> bool
        requires { ready self.old }
        ensures ready { ready self.new }
        ensures serves { serves self.old connection.old connection.new result self.new };
}
