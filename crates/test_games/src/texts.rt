//! Descriptions that trials of several crates play.

/// Two roles choose at once. The first wins where they choose the same, and the second where they do not.
pub const MATCH: &[u8] = b"(role a)
(role b)
(base done)
(base same)
(input a h)
(input a t)
(input b h)
(input b t)
(<= (legal ?r ?m) (input ?r ?m) (not (true done)))
(<= (next done) (does a ?m))
(<= (next same) (does a ?m) (does b ?m))
(<= terminal (true done))
(<= (goal a 100) (true same))
(<= (goal a 0) (not (true same)))
(<= (goal b 0) (true same))
(<= (goal b 100) (not (true same)))";

/// Two roles mark cells of a square in turn, each to get three in a line.
pub const MARKS: &[u8] = b"(role xplayer)
(role oplayer)
(index 1) (index 2) (index 3)
(<= (base (cell ?x ?y b)) (index ?x) (index ?y))
(<= (base (cell ?x ?y x)) (index ?x) (index ?y))
(<= (base (cell ?x ?y o)) (index ?x) (index ?y))
(<= (base (control ?p)) (role ?p))
(<= (input ?p (mark ?x ?y)) (role ?p) (index ?x) (index ?y))
(<= (input ?p noop) (role ?p))
(init (cell 1 1 b)) (init (cell 1 2 b)) (init (cell 1 3 b))
(init (cell 2 1 b)) (init (cell 2 2 b)) (init (cell 2 3 b))
(init (cell 3 1 b)) (init (cell 3 2 b)) (init (cell 3 3 b))
(init (control xplayer))
(<= (next (cell ?x ?y x)) (does xplayer (mark ?x ?y)) (true (cell ?x ?y b)))
(<= (next (cell ?x ?y o)) (does oplayer (mark ?x ?y)) (true (cell ?x ?y b)))
(<= (next (cell ?x ?y ?w)) (true (cell ?x ?y ?w)) (distinct ?w b))
(<= (next (cell ?x ?y b)) (does ?w (mark ?m ?n)) (true (cell ?x ?y b))
    (or (distinct ?x ?m) (distinct ?y ?n)))
(<= (next (control xplayer)) (true (control oplayer)))
(<= (next (control oplayer)) (true (control xplayer)))
(<= (row ?x ?w) (true (cell ?x 1 ?w)) (true (cell ?x 2 ?w)) (true (cell ?x 3 ?w)))
(<= (column ?y ?w) (true (cell 1 ?y ?w)) (true (cell 2 ?y ?w)) (true (cell 3 ?y ?w)))
(<= (diagonal ?w) (true (cell 1 1 ?w)) (true (cell 2 2 ?w)) (true (cell 3 3 ?w)))
(<= (diagonal ?w) (true (cell 1 3 ?w)) (true (cell 2 2 ?w)) (true (cell 3 1 ?w)))
(<= (line ?w) (row ?x ?w))
(<= (line ?w) (column ?y ?w))
(<= (line ?w) (diagonal ?w))
(<= open (true (cell ?x ?y b)))
(<= (legal ?w (mark ?x ?y)) (true (cell ?x ?y b)) (true (control ?w)))
(<= (legal xplayer noop) (true (control oplayer)))
(<= (legal oplayer noop) (true (control xplayer)))
(<= (goal xplayer 100) (line x))
(<= (goal xplayer 50) (not (line x)) (not (line o)) (not open))
(<= (goal xplayer 0) (line o))
(<= (goal oplayer 100) (line o))
(<= (goal oplayer 50) (not (line x)) (not (line o)) (not open))
(<= (goal oplayer 0) (line x))
(<= terminal (line x))
(<= terminal (line o))
(<= terminal (not open))";

/// One role with four moves, of which two are worth the most.
pub const FOUR: &[u8] = b"(role a)
(val x 40)
(val y 70)
(val z 70)
(val zz 10)
(<= (input a ?m) (val ?m ?v))
(<= (base (did ?m)) (val ?m ?v))
(<= (legal a ?m) (val ?m ?v))
(<= (next (did ?m)) (does a ?m))
(<= (goal a ?v) (true (did ?m)) (val ?m ?v))
(<= terminal (true (did ?m)))";

/// The first role ends the game by `x` with 90, and by `z` with no goal value. After `y` it can only go on, whatever the second role
/// replies, and gets 10.
pub const LIVE: &[u8] = b"(role a) (role b) (first x) (first y) (first z)
(reply r0) (reply r1) (reply r2) (reply r3) (reply r4)
(reply r5) (reply r6) (reply r7) (reply r8) (reply r9)
(base start) (base wx) (base wz) (base mid) (base low) (init start)
(input a go) (input b noop)
(<= (input a ?m) (first ?m))
(<= (input b ?m) (reply ?m))
(<= (legal a ?m) (true start) (first ?m))
(<= (legal b noop) (true start))
(<= (legal a go) (true mid))
(<= (legal b ?m) (true mid) (reply ?m))
(<= (next wx) (does a x)) (<= (next mid) (does a y))
(<= (next wz) (does a z)) (<= (next low) (does a go))
(<= terminal (true wx)) (<= terminal (true wz)) (<= terminal (true low))
(<= (goal a 90) (true wx)) (<= (goal a 10) (true low))";

/// Sixteen roles with one move each, of which that of the first ends the game.
pub const SIXTEEN: &[u8] =
    b"(role r1)(role r2)(role r3)(role r4)(role r5)(role r6)(role r7)(role r8)(role r9)(role r10)(role r11)(role r12)(role r13)(role r14)(role r15)(role r16)(base on)(<= (input ?r go) (role ?r))(<= (legal ?r go) (role ?r))(<= (next on) (does r1 go))(<= terminal (true on))(<= (goal ?r 55) (role ?r) (true on))";

/// A negated proposition outside `Base` never holds, and `init` and `next` of others have no effect.
pub const UNBASED: &[u8] =
    b"(role a)(base p)(input a go)(legal a go)(init r)(<= (next p) (not (true q)))(<= (next s) (true p))(<= terminal (true p))(<= (goal a 90) (true p))";
