// Whether a direction leads ahead of the facets of two pieces, or behind them.
ghost use Rattle.std.specs.Prelude.{◌≡◌, ◌⊎◌, ◌↔◌, All, IsTrue, pos, ◌<ℤ◌};
ghost use Rattle.staat_vec.specs.declared.vector.TheConstants.{DIRECTION, NORMAL};
ghost use Rattle.staat_vec.specs.declared.words.TheConstants.{SMALL};
ghost use Rattle.staat_vec.specs.Vectors.{IsWithin, dot, negative};

use staat_vec::{DIRECTION, NORMAL, Normal, SMALL, V3, dot, is_within, neg, small_dot};

/// How a direction leads past facets: ahead of all, behind all, or neither. Of no facets both are so.
#[derive(Clone, Copy)]
pub struct Leads {
    /// Whether it leads ahead of all facets.
    pub ahead: bool,
    /// Whether it leads behind all facets.
    pub behind: bool,
}

impl Leads {
    /// Neither is so.
    pub(crate) fn neither() -> Leads
        ensures ahead { IsTrue result.ahead → ⊥ }
        ensures behind { IsTrue result.behind → ⊥ }
    {
        Leads {
            ahead: false,
            behind: false,
        }
    }

    /// What is so of one of the two.
    pub(crate) fn or(self, o: Leads) -> Leads
        ensures ahead { IsTrue result.ahead ↔ (IsTrue self.ahead ⊎ IsTrue o.ahead) }
        ensures behind { IsTrue result.behind ↔ (IsTrue self.behind ⊎ IsTrue o.behind) }
    {
        Leads {
            ahead: self.ahead | o.ahead,
            behind: self.behind | o.behind,
        }
    }
}

/// A direction that leads past the facets of many pairs, and whether words hold its products with them. Most such
/// products take a fourth of the time.
#[derive(Clone, Copy)]
pub struct Heading {
    /// The direction, whose components are at most [`DIRECTION`] in absolute value.
    pub d: V3,
    /// Whether words hold its products with all normals.
    pub near: bool,
    /// Whether words hold its products with small normals, and it is led past such alone.
    pub fair: bool,
    pub ghost within: { IsWithin DIRECTION d },
    pub ghost nearness: { IsTrue near → IsWithin SMALL d },
    pub ghost fairness: { IsTrue fair → IsWithin NORMAL d },
}

impl Heading {
    /// The direction `d`, which is led past facets that are all small, if `small` says so.
    ///
    /// The components of `d` are at most [`DIRECTION`] in absolute value, those of a small facet at most [`SMALL`].
    pub fn of(d: V3, small: bool) -> Heading
        requires { IsWithin DIRECTION d }
        ensures is { result.d ≡ d }
        ensures small { IsTrue result.fair → IsTrue small }
    {
        Heading {
            d,
            near: is_within(d, SMALL),
            fair: small && is_within(d, NORMAL),
        }
    }

    // the product of a normal and the direction, exact
    fn along(&self, n: &Normal) -> i128
        requires { IsTrue self.now.fair → IsWithin SMALL n.now }
        ensures { result ≡ dot n.now self.now.d }
    {
        if self.near {
            n.small_dot(self.d) as i128
        } else if self.fair {
            small_dot(self.d, n.vector()) as i128
        } else {
            dot(n.vector(), self.d)
        }
    }

    // whether it leads ahead of all the facets
    fn is_ahead(&self, facets: &[Normal]) -> bool
        requires { IsTrue self.now.fair → All (IsWithin SMALL) facets.now }
        ensures { IsTrue result ↔ All (λ n. pos 0 <ℤ dot n self.now.d) facets.now }
    {
        for n in facets {
            if self.along(n) <= 0 {
                return false;
            }
        }
        true
    }

    // the opposite direction, led past the same facets
    fn turned(&self) -> Heading
        ensures is { result.d ≡ negative self.now.d }
        ensures fair { result.fair ≡ self.now.fair }
    {
        Heading {
            d: neg(self.d),
            near: self.near,
            fair: self.fair,
        }
    }

    // whether it leads behind all the facets
    fn is_behind(&self, facets: &[Normal]) -> bool
        requires { IsTrue self.now.fair → All (IsWithin SMALL) facets.now }
        ensures { IsTrue result ↔ All (λ n. dot n self.now.d <ℤ pos 0) facets.now }
    {
        self.turned().is_ahead(facets)
    }

    /// Whether it leads ahead of all the facets, and whether it leads behind all. Of the facets of two pieces it says
    /// whether the first, moved along the direction, meets the second, and whether the second meets the first.
    ///
    /// If it is fair, the components of the facets are at most [`SMALL`] in absolute value. The first facet tells which
    /// of the two may be so, and the search ends at one of which it is not.
    pub fn past(&self, facets: &[Normal]) -> Leads
        requires { IsTrue self.now.fair → All (IsWithin SMALL) facets.now }
        ensures ahead { IsTrue result.ahead ↔ All (λ n. pos 0 <ℤ dot n self.now.d) facets.now }
        ensures behind { IsTrue result.behind ↔ All (λ n. dot n self.now.d <ℤ pos 0) facets.now }
    {
        let Some((first, others)) = facets.split_first() else {
            return Leads {
                ahead: true,
                behind: true,
            };
        };
        let along = self.along(first);
        if along > 0 {
            Leads {
                ahead: self.is_ahead(others),
                behind: false,
            }
        } else if along < 0 {
            Leads {
                ahead: false,
                behind: self.is_behind(others),
            }
        } else {
            Leads::neither()
        }
    }
}

/// Whether `d` leads ahead of all the facets. Its components are at most [`DIRECTION`] in absolute value.
pub(crate) fn is_ahead(facets: &[Normal], d: V3) -> bool
    requires { IsWithin DIRECTION d }
    ensures { IsTrue result ↔ All (λ n. pos 0 <ℤ dot n d) facets.now }
{
    Heading::of(d, false).is_ahead(facets)
}
