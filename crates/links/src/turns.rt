// The order in which a loop goes over the links.
ghost use Rattle.std.specs.Prelude.{◌≡◌, ◌-◌, ◌<◌};
ghost use Rattle.std.specs.Iterator.{at_most};
ghost use Rattle.rules.specs.meaning.Links.{place, linked};
ghost use Rattle.links.specs.Turns.{first_link, next_to, next_link, links_of, StandsIn, GivesLink};

// Where a loop over the links stands: at the link of two different sites, or at the end, which is the number of sites and 0.
#[derive(Clone, Copy)]
pub struct Link {
    pub from: usize,
    pub to: usize,
}

// The first link of n sites.
#[tactic(auto, unfolding(crate::specs::Turns::first_link))]
pub fn first_link(n: usize) -> Link
    ensures { result ≡ first_link n }
{
    if 1 < n {
        Link { from: 0, to: 1 }
    } else {
        Link { from: n, to: 0 }
    }
}

// The next site that is not the sender itself.
#[tactic(auto, unfolding(crate::specs::Turns::next_to))]
fn next_to(from: usize, to: usize) -> usize
    requires { to < 16 }
    ensures { result ≡ next_to from to }
{
    let next = to + 1;
    if next == from { next + 1 } else { next }
}

// The link after this one: to the next site, or else the first one of the next sender.
#[tactic(auto, unfolding(crate::specs::Turns::next_link))]
pub fn next_link(link: Link, n: usize) -> Link
    requires { (link.from < 16) × (link.to < 16) }
    ensures { result ≡ next_link n link }
{
    let to = next_to(link.from, link.to);
    if to < n {
        Link { to, ..link }
    } else {
        Link {
            from: link.from + 1,
            to: 0,
        }
    }
}

// What is left of the links of so many sites: from the one where it stands on.
#[derive(Clone, Copy)]
pub struct Links {
    at: Link,
    sites: usize,
}

// The links of n sites, in their order. No run has more than 16, so of more the first 16 are taken.
pub fn links_of(n: usize) -> Links
    ensures { result ≡ links_of (linked n) }
{
    let sites = n.min(16);
    Links {
        at: first_link(sites),
        sites,
    }
}

impl Iterator for Links {
    type Item = Link;

    ghost can_next = { StandsIn };

    ghost next_gives = { GivesLink };

    ghost remaining = { λ s. at_most (256 - place s.at.from s.at.to) };

    fn next(&mut self) -> Option<Link> {
        let link = self.at;
        if link.from < self.sites {
            self.at = next_link(link, self.sites);
            Some(link)
        } else {
            None
        }
    }
}
