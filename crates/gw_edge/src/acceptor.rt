ghost use Rattle.std.specs.Prelude.{◌≡◌, ℕ, ◌≤◌, List, Option, None, option_map, OnOk, IfOk, OnErr, OnSome};
ghost use Rattle.gw_link.specs.Faults.{Counts};
ghost use Rattle.gw_link.specs.Pieces.{Keeps};
ghost use Rattle.gw_edge.specs.Accepting.{Told, GivesNext, Closes};

use gw_link::{Failed, Link};

/// Where connections with clients come from.
pub trait Acceptor: Drop {
    type Conn: Link;

    // What each link to come tells, in turn. None: it doesn't tell.
    ghost coming: { Self → Option (List Told) };

    // What each closed link tells, in the order in which they were closed. None: it doesn't tell.
    ghost closed: { Self → Option (List Told) };

    // One more link can be closed.
    ghost has_room: { Self → Type 0 };

    // How many calls have failed; at the last u64 it stays.
    ghost faults: { Self → ℕ };

    /// The next link, or None where none is left.
    fn accept(&mut self) -> Result<Option<Self::Conn>, Failed>
        ensures next { IfOk result (λ link. GivesNext (coming self.old)
            (option_map (λ l. record { left = Self.Conn.left l; written = Self.Conn.written l }) link) (coming self.new)) }
        ensures room { IfOk result (λ link. OnSome link (has_room self.new)) }
        ensures kept { OnErr result (Keeps (coming self.old) (coming self.new)) }
        ensures unclosed { Keeps (closed self.old) (closed self.new) }
        ensures counts { Counts (faults self.old) (faults self.new) result };

    /// Ends the connection, and puts the link at the end of the closed ones. After each link that was given there is room for one.
    fn close(&mut self, link: Self::Conn)
        requires { has_room self.old }
        ensures closes { Closes (closed self.old) (record { left = Self.Conn.left link; written = Self.Conn.written link }) (closed self.new) }
        ensures kept { Keeps (coming self.old) (coming self.new) }
        ensures later { faults self.old ≤ faults self.new };
}
