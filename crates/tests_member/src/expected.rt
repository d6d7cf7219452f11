// The answers for random searches, by the reference in Python.

pub(crate) const EXPECTED: &str = "rest -2 2^1; pivot 3
nothing
rest 2 1^2;1 0^1;
cofactors 3: 1;
rest 4 2^2;4;
rest 3; pivot 4
rest 1 0^2;4 2^2;
cofactors 2: 5;
cofactors 0: 5 0^1 1^2;3 0^2;8 0^1 1^1;2;
rest 5 0^1 1^1;2 0^1 2^1;1; pivot 2
rest 6 0^2;7 2^2;
rest 6 0^2;4 1^2;5 1^1; pivot 6
rest 3 1^1; pivot 2
nothing
nothing
cofactors 0: 3 2^1; 3: 1;
cofactors 1: 4;
rest 2 1^1 2^1;2 1^1; pivot 2
cofactors 1: 2 1^1; 3: 3;
cofactors 0: 4 2^1;
cofactors 0: 7 0^1;6;
rest 6 0^1 2^1;4 1^2;8 0^1; pivot 8
cofactors 0: 5;
rest 4 2^2;4 2^1; pivot 4
nothing
cofactors 0: 1 1^1 2^1;
nothing
cofactors 2: 2 1^1;
spent 2
cofactors 0: 2 0^1 2^1;2;
rest 3 2^1;
rest 2 1^1;6; pivot 4
rest 2 0^1 1^1;4 2^2;4 1^1;
rest 6 0^1;9 2^1;4; pivot 6
rest 4 2^2;
cofactors 0: 5;
rest -1 0^2;-1 0^1 2^1;2 2^2;1 0^1; pivot -3
nothing
nothing
cofactors 2: 3;
rest 1 1^1 2^1;
cofactors 0: 5;
cofactors 0: 1 2^2;1 1^1;1 2^1;4; 1: 3; 2: 5;
rest 4 0^1 1^1 2^1;6 1^1 2^1;7 1^1;7; pivot 6
rest 1 0^1 1^2;4 1^3;
cofactors 0: 8 1^1; 2: 7;
cofactors 0: 1 0^1 2^1;8;
rest 4 0^1 2^1;4; pivot 8
cofactors 1: -2 2^1;-3;
cofactors 0: 1 1^1; 1: 1;
rest 1 1^3;1 1^1 2^1;2 2^1;
cofactors 1: 1;
spent 2
cofactors 0: 4; 1: 4 2^1;
cofactors 0: 2 0^2;2 2^2; 2: 4;
rest 2 2^2;4 0^1; pivot 6
rest 8 0^1 2^2;8 0^1 2^1;4 2^2;8; pivot 6
rest 6 1^1 2^1;1 1^1; pivot 6
cofactors 0: 8 2^2;4;
cofactors 0: 10 0^1;9 1^1;9;
rest -1 0^1 1^2; pivot -2
nothing
cofactors 2: 2 0^1;
rest 1 0^1; pivot 2
rest 3 1^1 2^1;4 2^2;4 2^1;
cofactors 0: 2;
spent 7
cofactors 0: 7 1^1;6;
spent 10
rest 4 1^2; pivot 6
rest 6 0^1 1^1;5;
rest 8 0^1;10; pivot 10
rest -2 1^2;3 1^1;2; pivot -2
cofactors 0: 1;
nothing
cofactors 0: 2 1^1 2^1;
rest 1;
cofactors 3: 4;
spent 1
cofactors 0: 7;
spent 4
rest 6 0^2;5; pivot 2
rest 8;
cofactors 0: 1 2^2;4;
rest 1 2^2;-3; pivot -2
nothing
cofactors 1: 1;
cofactors 0: 3 0^1;
rest 1 1^2;
spent 4
rest 1 1^1 2^1;5 2^2;1 1^1;
rest 4 0^1;3 1^1; pivot 4
rest 2 0^2;7 2^1; pivot 6
spent 1
spent 1
cofactors 2: 6 2^2; 3: 3;
rest 1 0^1 1^1;-2 1^1 2^1; pivot -2
cofactors 0: 1;
cofactors 0: 2; 1: 1 1^1;
rest 2 0^1 2^1;1 1^2;1 2^1; pivot 2
rest 3 1^2;2 0^1;2 2^1;2;
cofactors 0: 1 2^1;
cofactors 0: 6;
rest 4 0^1; pivot 4
cofactors 0: 3 0^1;8 2^1;
cofactors 0: 2 2^1; 1: 1;
spent 3
spent 3
rest -2 0^1 2^2;-1 2^3;-3 0^2;1 2^1;
nothing
spent 16
rest 2 0^1 2^2;2 0^1 1^1;3; pivot 2
rest 3;
cofactors 2: 2;
rest 4 0^2 1^1;5 0^1 1^1;
rest 6 1^1 2^1;2; pivot 2
cofactors 0: 4 2^1;6; 2: 1 2^1;
cofactors 1: 8;
rest 4 2^2;
cofactors 1: 8 1^2;6 1^1 2^1;8 0^1;6 1^1;
rest -2 0^1 1^2;2 1^3;-1 0^2; pivot -2
cofactors 0: 1 1^1;1;
nothing
cofactors 1: 2;
cofactors 0: 3 1^2;1 0^1;2;
rest 4 2^3; pivot 3
rest 4 0^1;2 1^1;
rest 4 2^1; pivot 2
cofactors 1: 8 0^1 2^1;1 2^2;4 1^1;7 2^1;
spent 3
spent 1
rest 4 1^1;8 2^1; pivot 4
rest 3 0^1 1^2;1; pivot 2
cofactors 0: 1 0^1; 3: 1;
rest 2;
rest 2 0^1 1^1 2^1;3 0^1 1^1; pivot 2
cofactors 0: 2 0^1;2;
cofactors 0: 3; 2: 4;
cofactors 0: 2 1^1 2^1;
rest 5 1^1 2^1;4 0^1; pivot 6
spent 5
rest 6 1^1;4; pivot 4
cofactors 0: 5 1^1; 1: 10 1^1 2^1;5 2^1;10;
rest 4; pivot 10
spent 1
nothing
nothing
nothing
spent 1
rest 3 0^1;4 2^1; pivot 4
rest 5 1^3;6 1^2;2 2^2;2 1^1;
cofactors 0: 3 2^1;
spent 1
nothing
rest 4 1^2;
rest 4 0^1;4 1^1;6; pivot 10
rest -2 1^2;-3 2^2;-3 0^1; pivot 3
cofactors 0: 1 2^1;1; 2: 1;
rest 2;
cofactors 0: 1 2^2;
cofactors 0: 3 0^1;
nothing
rest 4 0^1;6 1^1;
cofactors 0: 7;
cofactors 0: 7 2^1; 1: 8 1^1 2^1;
cofactors 0: 4 0^1;
cofactors 0: 10 0^1;6 1^1; 1: 8 0^1;1 2^1;1; 2: 2; 3: 1;
cofactors 0: 2 0^1;4 1^1;
rest -2 0^2; pivot -2
nothing
rest 1 2^1;
rest 2 0^1 1^2 2^1; pivot 2
spent 3
rest 4 2^2; pivot 4
rest 4 0^2;3 1^2;1 1^1;
cofactors 3: 2;
rest 7 1^2;
cofactors 0: 9 0^1;
spent 13
rest 9 2^2;1 0^1;10 1^1;3 2^1;9; pivot 9
rest 1 0^3;-1 0^2 1^1; pivot -2
nothing
rest 2 0^1 2^2;2 1^1;
nothing
nothing
rest 5 0^1 2^1;3 1^1 2^1;5 0^1;2; pivot 3
rest 5 0^1 1^2;2 2^3;2 1^1 2^1;2;
cofactors 0: 1 0^1;
rest 7 2^1; pivot 3
cofactors 0: 3 1^2;5;
spent 4
rest 4 0^2 1^1;1 0^1 2^1; pivot 4
rest -2 0^2 1^1;-2 1^1 2^2;-2;
cofactors 0: 1 0^1; 1: 1;
cofactors 1: 2 2^1;
cofactors 0: 2 0^2;3;
rest 2 0^2;2 0^1;4 2^1;
rest 2 0^2 1^1;2 0^2; pivot 4
cofactors 0: 1 1^2 2^1;4;
rest 6 0^1;7 2^1;2; pivot 4
cofactors 0: 7 0^1;5 2^1;
cofactors 0: 2 1^1;7;
rest 3 0^2;6 0^1;1 1^1;
rest 2 0^2 1^1;1 0^1 1^1 2^1;11 0^1 1^1; pivot 2
rest 1; pivot -3
cofactors 0: 1 0^1;
nothing
rest 2 0^1;2 2^1; pivot 2
spent 2
rest 4 2^4;3 1^1 2^2;2 2^2;2 2^1; pivot 4
spent 13
cofactors 0: 4;
rest 3 0^2 1^1; pivot 6
cofactors 2: 2; 3: 1;
rest 4 0^1;
rest 5 2^3;1 2^2;8 0^1; pivot 10
rest 1 0^2 2^1;-1 1^1 2^1; pivot 2
cofactors 2: 1;
rest 2 0^2;2 2^2;1 0^1;2;
cofactors 0: 3 2^1;
spent 2
cofactors 1: 5;
cofactors 0: 1 2^2;1 2^1;4; 2: 5 1^1;1; 3: 6;
rest 3 0^1 2^1;4 1^1;4; pivot 2
rest 7 1^2;3 2^1;
rest 6 1^2 2^1;1 1^1 2^1;6 2^1; pivot 8
cofactors 0: 9; 1: 4 0^2;10 0^1 1^1;
cofactors 0: 6;
rest -1 0^2;-2 0^1 1^1;1; pivot 3
cofactors 0: 1;
rest 1 1^2;1;
spent 1
spent 13
rest 4 2^2;4 2^1; pivot 2
rest 5 0^1;4 1^1;
cofactors 0: 6; 2: 2;
rest 8 1^1;5; pivot 6
rest 4 0^1;8 2^1; pivot 2
cofactors 2: 7 0^1;2 2^1;10;
rest 3 0^2 2^1;5 2^1;4; pivot 9
rest 2 0^2;1 0^1 1^1;1 2^1; pivot 2
cofactors 2: 1;
rest 2;
rest 3 0^1 1^1;2 1^1;2; pivot 2
spent 16
rest 4 2^2;3 0^1;1 2^1; pivot 3
spent 1
rest 6 1^2 2^1;6 0^1 2^1;6 1^1; pivot 2
rest 6 1^2;4 2^2;7 2^1;
spent 9
spent 7
cofactors 0: 11;
rest -1; pivot 2
nothing
nothing
cofactors 1: 1; 2: 2;
cofactors 0: 2 2^1;
cofactors 0: 3;
rest 3 1^1;
cofactors 1: 4 1^1 2^1;2;
rest 7 0^1 2^1;
cofactors 3: 5;
cofactors 0: 10 0^1;2 1^1; 1: 7 0^1 1^1;1 0^1 2^1;1 1^2;9 1^1 2^1;1;
rest 2; pivot 2
rest 3 0^3;-2 1^2;-3 2^1; pivot 3
cofactors 1: 1;
rest 1 1^1;
cofactors 2: 1;
spent 18
rest 4 1^1;4; pivot 2
cofactors 0: 2 0^1;
rest 4 0^2 1^1; pivot 6
rest 1 0^1 2^2;
rest 4 0^2 1^1 2^1;7 0^1 1^1 2^1;2 1^1; pivot 4
rest 3 0^3;8 2^2;1 0^1;
cofactors 0: 4;
rest 1 0^2;1; pivot 3
nothing
rest 1 1^2 2^1;2 1^1 2^2;2 1^1 2^1;
rest 2 0^3 2^1; pivot 2
spent 9
rest 3 0^1 1^2;3 1^1; pivot 2
rest 2 1^2;
rest 2 2^2;4 1^1;4 2^1;1; pivot 6
rest 6 2^2; pivot 6
rest 8 0^1 2^1; pivot 8
rest 2 0^3;7 0^1;
cofactors 0: 7; 3: 5;
rest 2 0^1;1; pivot -2
nothing
cofactors 3: 2;
spent 8
rest 1 0^2 1^1;3 1^3;1 0^2;4 2^1;
nothing
rest 3 1^1 2^2;
spent 2
spent 5
cofactors 0: 9;
cofactors 1: 3 2^1;
rest 9 1^1; pivot 3";
