//! What the programs report that have no graph of their name: outputs, cells, and that nothing waits at the end. All of it was computed without
//! this project, by other programs and by hand; the two faults have the nodes where they are made, counted in the graph by hand.

use test_served::ways::Orders;

/// A program, the orders in which it is run, and what those runs report.
#[derive(Clone, Copy)]
pub struct Known {
    pub name: &'static str,
    pub orders: Orders,
    pub prints: &'static [u8],
}

/// The programs without a graph.
pub const KNOWN: [Known; 34] = [
    Known {
        name: "fibonacci_loop.df",
        orders: Orders::All,
        prints: b"output 0 55
output 1 89
deferred 0
end Rest
",
    },
    Known {
        name: "square_root.df",
        orders: Orders::All,
        prints: b"output 0 1000
deferred 0
end Rest
",
    },
    Known {
        name: "longest_collatz.df",
        orders: Orders::All,
        prints: b"output 0 27
output 1 111
deferred 0
end Rest
",
    },
    Known {
        name: "prefix_sums.df",
        orders: Orders::All,
        prints: b"output 0 385
cell S 0 0
cell S 1 1
cell S 2 5
cell S 3 14
cell S 4 30
cell S 5 55
cell S 6 91
cell S 7 140
cell S 8 204
cell S 9 285
cell S 10 385
deferred 0
end Rest
",
    },
    Known {
        name: "greatest.df",
        orders: Orders::All,
        prints: b"output 0 952
cell A 0 590
cell A 1 575
cell A 2 84
cell A 3 781
cell A 4 474
cell A 5 899
cell A 6 952
cell A 7 185
cell A 8 886
cell A 9 847
cell A 10 308
cell A 11 821
cell A 12 866
cell A 13 851
cell A 14 288
cell A 15 321
deferred 0
end Rest
",
    },
    Known {
        name: "matrix_product.df",
        orders: Orders::All,
        prints: b"output 0 30
output 1 90
cell A 0 1
cell A 1 2
cell A 2 3
cell A 3 4
cell A 4 5
cell A 5 6
cell A 6 7
cell A 7 8
cell A 8 9
cell B 0 9
cell B 1 8
cell B 2 7
cell B 3 6
cell B 4 5
cell B 5 4
cell B 6 3
cell B 7 2
cell B 8 1
cell C 0 30
cell C 1 24
cell C 2 18
cell C 3 84
cell C 4 69
cell C 5 54
cell C 6 138
cell C 7 114
cell C 8 90
deferred 0
end Rest
",
    },
    Known {
        name: "faults.df",
        orders: Orders::All,
        prints: b"output 0 fault range at 0 4
output 1 2
output 2 fault zero at 0 2
output 3 10
cell A 3 5
deferred 0
end Rest
",
    },
    Known {
        name: "precedence.df",
        orders: Orders::All,
        prints: b"output 0 24
output 1 8
output 2 2
output 3 5
output 4 10
output 5 1
output 6 5
output 7 2
output 8 -5
output 9 -9
output 10 1
output 11 -10
output 12 2
output 13 -1
deferred 0
end Rest
",
    },
    Known {
        name: "hanoi.df",
        orders: Orders::ByDepth,
        prints: b"output 0 4095
deferred 0
end Rest
",
    },
    Known {
        name: "mergesort.df",
        orders: Orders::ByDepth,
        prints: b"output 0 0
output 1 517
output 2 1005
deferred 0
end Rest
",
    },
    Known {
        name: "queens.df",
        orders: Orders::ByDepth,
        prints: b"output 0 40
deferred 0
end Rest
",
    },
    Known {
        name: "tak.df",
        orders: Orders::ByDepth,
        prints: b"output 0 5
deferred 0
end Rest
",
    },
    Known {
        name: "ackermann.df",
        orders: Orders::ByDepth,
        prints: b"output 0 13
deferred 0
end Rest
",
    },
    Known {
        name: "bareiss.df",
        orders: Orders::ByDepth,
        prints: b"output 0 -4374
deferred 0
end Rest
",
    },
    Known {
        name: "binary_search.df",
        orders: Orders::ByDepth,
        prints: b"output 0 10
output 1 7
deferred 0
end Rest
",
    },
    Known {
        name: "bitonic_sort.df",
        orders: Orders::ByDepth,
        prints: b"output 0 10
output 1 0
output 2 550
output 3 947
deferred 0
end Rest
",
    },
    Known {
        name: "coins.df",
        orders: Orders::ByDepth,
        prints: b"output 0 73682
deferred 0
end Rest
",
    },
    Known {
        name: "crc.df",
        orders: Orders::ByDepth,
        prints: b"output 0 3421780262
deferred 0
end Rest
",
    },
    Known {
        name: "edit_distance.df",
        orders: Orders::ByDepth,
        prints: b"output 0 7
deferred 0
end Rest
",
    },
    Known {
        name: "histogram.df",
        orders: Orders::ByDepth,
        prints: b"output 0 13
output 1 15
output 2 19
output 3 10
output 4 15
output 5 10
output 6 9
output 7 9
deferred 0
end Rest
",
    },
    Known {
        name: "knapsack.df",
        orders: Orders::ByDepth,
        prints: b"output 0 113
deferred 0
end Rest
",
    },
    Known {
        name: "life.df",
        orders: Orders::ByDepth,
        prints: b"output 0 8
output 1 565
deferred 0
end Rest
",
    },
    Known {
        name: "mandelbrot.df",
        orders: Orders::ByDepth,
        prints: b"output 0 32
output 1 944
deferred 0
end Rest
",
    },
    Known {
        name: "number_theoretic_transform.df",
        orders: Orders::ByDepth,
        prints: b"output 0 1616
output 1 998244209
output 2 934824099
deferred 0
end Rest
",
    },
    Known {
        name: "paraffins.df",
        orders: Orders::ByDepth,
        prints: b"output 0 75
deferred 0
end Rest
",
    },
    Known {
        name: "pascal.df",
        orders: Orders::ByDepth,
        prints: b"output 0 252
output 1 1024
deferred 0
end Rest
",
    },
    Known {
        name: "pipeline.df",
        orders: Orders::ByDepth,
        prints: b"output 0 109
output 1 15
deferred 0
end Rest
",
    },
    Known {
        name: "quicksort.df",
        orders: Orders::ByDepth,
        prints: b"output 0 13
output 1 654
output 2 960
deferred 0
end Rest
",
    },
    Known {
        name: "relaxation.df",
        orders: Orders::ByDepth,
        prints: b"output 0 6553
output 1 756
deferred 0
end Rest
",
    },
    Known {
        name: "run_lengths.df",
        orders: Orders::ByDepth,
        prints: b"output 0 15
output 1 4
deferred 0
end Rest
",
    },
    Known {
        name: "scan.df",
        orders: Orders::ByDepth,
        prints: b"output 0 4
output 1 252
output 2 453
deferred 0
end Rest
",
    },
    Known {
        name: "sieve.df",
        orders: Orders::ByDepth,
        prints: b"output 0 25
output 1 97
deferred 0
end Rest
",
    },
    Known {
        name: "virtual_machine.df",
        orders: Orders::ByDepth,
        prints: b"output 0 3628800
output 1 32
deferred 0
end Rest
",
    },
    Known {
        name: "warshall.df",
        orders: Orders::ByDepth,
        prints: b"output 0 12
output 1 23
deferred 0
end Rest
",
    },
];
