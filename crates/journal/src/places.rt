// Where the header, the bodies and the home pages stand below.
ghost use Rattle.std.specs.Prelude.{◌≡◌, ◌+◌, ◌<◌};
ghost use Rattle.journal.specs.Standing.{above};
ghost use Rattle.journal.specs.Sending.{page_of};

/// The header's page.
pub const HEADER: usize = 0;

// How many pages there are above.
pub(crate) fn pages_above(count: usize) -> usize
    ensures { result ≡ above count }
{
    count.saturating_sub(65).min(65535)
}

// The page of body j.
pub(crate) fn body_page(j: usize) -> usize
    requires { j < 64 }
    ensures { result ≡ 1 + j }
{
    1 + j
}

// The page below of page i above.
pub(crate) fn home_page(i: usize) -> usize
    requires { i < 65536 }
    ensures { result ≡ 65 + i }
{
    65 + i
}

/// Where the entries of a group are written.
#[derive(Clone, Copy)]
pub enum Area {
    /// Each to the body of its place in the group.
    Body,
    /// Each to its home page.
    Home,
}

impl Area {
    // The page of entry j, of this page above.
    pub(crate) fn page(self, j: usize, above: u16) -> usize
        requires { j < 64 }
        ensures { result ≡ page_of self j above }
    {
        match self {
            Area::Body => body_page(j),
            Area::Home => home_page(usize::from(above)),
        }
    }
}
