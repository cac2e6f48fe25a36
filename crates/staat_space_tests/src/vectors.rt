// Worked vectors, computed by hand or by another program.
use crate::fixtures::{same, same_vector};
use staat_samples::at;
use staat_vec::{
    DIFF, DIRECTION, EDGE, NORMAL, Name, Names, Normal, ORIGIN, OutOfMemory, POINT, Sign, VERTEX,
    add, canon, cross_diff, cross_normal, det, dot, first_nonzero, is_same, neg, order_on,
    primitive, sign_dot, sub,
};
use std::alloc::Global;
use std::process::Abort;

#[test]
fn sums(rt: HostRuntime) {
    let edge = at(1 << 80, -(1 << 80), 5);
    same_vector(&rt, add(edge, edge), at(1 << 81, -(1 << 81), 10));
    let low = at(-262144, 262144, 0);
    same_vector(
        &rt,
        sub(at(262144, -262144, 1), low),
        at(524288, -524288, 1),
    );
    same_vector(
        &rt,
        neg(at(1 << 81, -(1 << 81), 0)),
        at(-(1 << 81), 1 << 81, 0),
    );
}

#[test]
fn cross_products(rt: HostRuntime) {
    let a = at(1 << 19, 1 << 19, -(1 << 19));
    let b = at(-(1 << 19), 1 << 19, 1 << 19);
    same_vector(&rt, cross_diff(a, b), at(1 << 39, 0, 1 << 39));
    let n = at(1 << 39, 1 << 39, -(1 << 39));
    let m = at(-(1 << 39), 1 << 39, 1 << 39);
    same_vector(&rt, cross_normal(n, m), at(1 << 79, 0, 1 << 79));
}

#[test]
fn products(rt: HostRuntime) {
    let n = at(1 << 39, 1 << 39, -(1 << 39));
    let d = at(-(1 << 81), -(1 << 81), 1 << 81);
    same(&rt, &dot(n, d), &-3987683987354747618711421180841033728);
    let m = at(-(1 << 39), 1 << 39, 1 << 39);
    let w = at(1 << 39, -(1 << 39), 1 << 39);
    same(&rt, &det(n, m, w), &664613997892457936451903530140172288);
}

#[test]
fn normals(rt: HostRuntime) {
    let v = at(1 << 39, -(1 << 39), 5);
    let n = Normal::of(v);
    same_vector(&rt, n.vector(), v);
    same(
        &rt,
        &n.small_dot(at(3, -(1 << 22), 7)),
        &2305844658481135651,
    );
}

#[test]
fn first_components(rt: HostRuntime) {
    same(&rt, &first_nonzero(at(0, -2, 3)), &-2);
    same(&rt, &first_nonzero(ORIGIN), &0);
}

#[test]
fn primitive_and_canonical(rt: HostRuntime) {
    let found = [
        primitive(at(6, -9, 0)),
        primitive(at(0, 0, -5)),
        primitive(at(15, 10, 6)),
        primitive(at(1 << 81, -(1 << 80), 3 << 79)),
        canon(at(0, -2, 3)),
        canon(at(1, -5, 0)),
        canon(at(0, 0, -7)),
    ];
    let wanted = [
        at(2, -3, 0),
        at(0, 0, -1),
        at(15, 10, 6),
        at(4, -2, 3),
        at(0, 2, -3),
        at(1, -5, 0),
        at(0, 0, 7),
    ];
    assert_eq!(rt; found, wanted);
}

#[test]
fn signs(rt: HostRuntime) {
    let n = at(2, -3, 1);
    same(&rt, &sign_dot(n, at(1, 1, 2)), &Sign::Pos);
    same(&rt, &sign_dot(n, at(1, 1, 1)), &Sign::Zero);
    same(&rt, &sign_dot(n, at(1, 1, 0)), &Sign::Neg);
}

#[test]
fn orders_along_a_vector(rt: HostRuntime) {
    let up = at(0, 0, 1);
    same(&rt, &order_on(up, at(1, 0, 0), at(1, 1, 7)), &Sign::Pos);
    same(&rt, &order_on(up, at(1, 1, 7), at(1, 0, 0)), &Sign::Neg);
    same(&rt, &order_on(up, at(1, 1, 7), at(-2, -2, 0)), &Sign::Zero);
}

#[test]
fn orders(rt: HostRuntime) {
    assert!(rt; Sign::Neg < Sign::Zero && Sign::Zero < Sign::Pos);
    assert!(rt; at(0, 9, 9) < at(1, -9, -9) && at(1, -9, 9) < at(1, 0, -9));
    assert!(rt; is_same(ORIGIN, at(0, 0, 0)) && !is_same(ORIGIN, at(0, 0, 1)));
}

#[test]
fn bounds(rt: HostRuntime) {
    let bounds = [POINT, DIFF, NORMAL, VERTEX, EDGE, DIRECTION];
    let wanted = [
        262144,
        524288,
        549755813888,
        604462909807314587353088,
        1208925819614629174706176,
        2417851639229258349412352,
    ];
    same(&rt, &bounds, &wanted);
}

// a name, which is listed and copied
fn names(rt: &impl Abort, alloc: Global, name: Name) {
    let copy = name.copied(alloc).expect(rt, "memory");
    same(rt, &[name.as_str(), copy.as_str()], &["a.off"; 2]);
    let names = Names::from_vec(vec![in alloc; name].expect(rt, "memory"));
    same(rt, &names.as_slice().len(), &1);
}

#[test]
fn names_are_copied(rt: HostRuntime) {
    let text = "a.off".to_string(rt.alloc()).expect(&rt, "memory");
    names(&rt, rt.alloc(), Name::from_string(text));
}

#[test]
fn no_memory_is_out_of_memory(rt: HostRuntime) {
    let refused: Result<Vec<u8>, OutOfMemory> = Vec::with_capacity(rt.alloc(), usize::MAX).map_err(
        OutOfMemory::from,
    );
    assert!(rt; refused.is_err());
}
