//! Model texts in canonical form.

pub const CANONICAL: &[u8] = b"message a 0
message b 0
chronicle c {
  event(a, t1)
  event(b, t2)
  t2 - t1 in [1, 5]
}
";

pub const ALL_FORMS: &[u8] = b"message a 2
message b 0
attribute v 1 in (open, closed)
attribute w 0
chronicle first {
  event(a[?x, ?y], t1)
  event(v[?s]: (open, *), t2) level 2
  event(w: (*, on), t3) level 7
  point z
  t2 - t1 in [-inf, 5]
  t1 - z in [-7, inf]
  ?x in (p, q)
  ?x != ?y
  noevent(a[?x, *], (t1 + 1, t1 + 10))
  occurs((1, inf), b, (t1, t2))
  occurs((0, 3), b, (t1, t2))
  hold(v[?s]: open, (t1, t2 - 3))
  hold(w: on, (t1, t3))
}
chronicle second {
  event(b, t1)
}
";
