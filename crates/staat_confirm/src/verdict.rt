// What is said of a short certificate.
use staat_holds::BrokenHold;

/// The first rule that a short certificate breaks. Nodes, parts, pieces, and the holds of a list count from 0.
#[derive(Clone, Copy)]
pub enum ShortReason {
    /// It states this number of parts, which is not the product's.
    WrongParts(u32),
    /// A hold of the stuck set breaks a rule.
    HoldBreaks(BrokenHold),
    /// A hold of the group at this node breaks a rule.
    GroupBreaks {
        node: usize,
        broken: BrokenHold,
    },
    /// At this node stands a part that does not exist or stands at an earlier node. Where it is the number of nodes, a
    /// part stands nowhere.
    BadLeaves(usize),
    /// The direction of the split at this node is zero.
    ZeroDirection(usize),
    /// Along the direction of the split at this node the piece `i` of the part `a`, on the side that moves, meets the
    /// piece `j` of the part `b`.
    Meet {
        a: u32,
        i: u32,
        b: u32,
        j: u32,
        node: usize,
    },
}

/// What is said of a short certificate for a product.
#[derive(Clone, Copy)]
pub enum ShortVerdict {
    /// It is valid, and its plan takes all parts apart.
    ValidPlan,
    /// It is valid, and no plan takes all parts apart.
    ValidRefusal,
    /// It is not valid.
    Not(ShortReason),
}
