//! The programs of the folder `examples`, without their comments, with what an independent program
//! answers about them.
use super::Worked;

const FIBONACCI: &str = "omptasks 1
work 1 task { work 1 task { work 1 task { work 1 task { work 1 task { work 1 task { work 1 } task {
work 1 } taskwait work 1 } task { work 1 } taskwait work 1 } task { work 1 task { work 1 } task {
work 1 } taskwait work 1 } taskwait work 1 } task { work 1 task { work 1 task { work 1 } task {
work 1 } taskwait work 1 } task { work 1 } taskwait work 1 } taskwait work 1 } task { work 1 task {
work 1 task { work 1 task { work 1 } task { work 1 } taskwait work 1 } task { work 1 } taskwait
work 1 } task { work 1 task { work 1 } task { work 1 } taskwait work 1 } taskwait work 1 } taskwait
work 1 } task { work 1 task { work 1 task { work 1 task { work 1 task { work 1 } task { work 1 }
taskwait work 1 } task { work 1 } taskwait work 1 } task { work 1 task { work 1 } task { work 1 }
taskwait work 1 } taskwait work 1 } task { work 1 task { work 1 task { work 1 } task { work 1 }
taskwait work 1 } task { work 1 } taskwait work 1 } taskwait work 1 } taskwait work 1";

const MATRIX_PRODUCT: &str = "omptasks 1
work 1 task depend(out: a11) { work 2 } task depend(out: a12) { work 2 } task depend(out: a13) {
work 2 } task depend(out: a21) { work 2 } task depend(out: a22) { work 2 } task depend(out: a23) {
work 2 } task depend(out: a31) { work 2 } task depend(out: a32) { work 2 } task depend(out: a33) {
work 2 } task depend(out: b11) { work 2 } task depend(out: b12) { work 2 } task depend(out: b13) {
work 2 } task depend(out: b21) { work 2 } task depend(out: b22) { work 2 } task depend(out: b23) {
work 2 } task depend(out: b31) { work 2 } task depend(out: b32) { work 2 } task depend(out: b33) {
work 2 } task depend(in: a11, b11) depend(inout: c11) { work 9 }
task depend(in: a11, b12) depend(inout: c12) { work 9 }
task depend(in: a11, b13) depend(inout: c13) { work 9 }
task depend(in: a21, b11) depend(inout: c21) { work 3 }
task depend(in: a21, b12) depend(inout: c22) { work 3 }
task depend(in: a21, b13) depend(inout: c23) { work 3 }
task depend(in: a31, b11) depend(inout: c31) { work 3 }
task depend(in: a31, b12) depend(inout: c32) { work 3 }
task depend(in: a31, b13) depend(inout: c33) { work 3 }
task depend(in: a12, b21) depend(inout: c11) { work 3 }
task depend(in: a12, b22) depend(inout: c12) { work 3 }
task depend(in: a12, b23) depend(inout: c13) { work 3 }
task depend(in: a22, b21) depend(inout: c21) { work 9 }
task depend(in: a22, b22) depend(inout: c22) { work 9 }
task depend(in: a22, b23) depend(inout: c23) { work 9 }
task depend(in: a32, b21) depend(inout: c31) { work 3 }
task depend(in: a32, b22) depend(inout: c32) { work 3 }
task depend(in: a32, b23) depend(inout: c33) { work 3 }
task depend(in: a13, b31) depend(inout: c11) { work 3 }
task depend(in: a13, b32) depend(inout: c12) { work 3 }
task depend(in: a13, b33) depend(inout: c13) { work 3 }
task depend(in: a23, b31) depend(inout: c21) { work 3 }
task depend(in: a23, b32) depend(inout: c22) { work 3 }
task depend(in: a23, b33) depend(inout: c23) { work 3 }
task depend(in: a33, b31) depend(inout: c31) { work 9 }
task depend(in: a33, b32) depend(inout: c32) { work 9 }
task depend(in: a33, b33) depend(inout: c33) { work 9 } taskwait work 1";

const PIPELINE: &str = "omptasks 1
task depend(out: part1) depend(inout: input) { work 2 } task depend(inout: part1) { work 7 }
task depend(inout: part1) { work 5 } task depend(in: part1) depend(inout: output) { work 3 }
task depend(out: part2) depend(inout: input) { work 2 } task depend(inout: part2) { work 7 }
task depend(inout: part2) { work 5 } task depend(in: part2) depend(inout: output) { work 3 }
task depend(out: part3) depend(inout: input) { work 2 } task depend(inout: part3) { work 7 }
task depend(inout: part3) { work 5 } task depend(in: part3) depend(inout: output) { work 3 }
task depend(out: part4) depend(inout: input) { work 2 } task depend(inout: part4) { work 7 }
task depend(inout: part4) { work 5 } task depend(in: part4) depend(inout: output) { work 3 }
task depend(out: part5) depend(inout: input) { work 2 } task depend(inout: part5) { work 7 }
task depend(inout: part5) { work 5 } task depend(in: part5) depend(inout: output) { work 3 }
task depend(out: part6) depend(inout: input) { work 2 } task depend(inout: part6) { work 7 }
task depend(inout: part6) { work 5 } task depend(in: part6) depend(inout: output) { work 3 }
task depend(out: part7) depend(inout: input) { work 2 } task depend(inout: part7) { work 7 }
task depend(inout: part7) { work 5 } task depend(in: part7) depend(inout: output) { work 3 }
task depend(out: part8) depend(inout: input) { work 2 } task depend(inout: part8) { work 7 }
task depend(inout: part8) { work 5 } task depend(in: part8) depend(inout: output) { work 3 }
task depend(out: part9) depend(inout: input) { work 2 } task depend(inout: part9) { work 7 }
task depend(inout: part9) { work 5 } task depend(in: part9) depend(inout: output) { work 3 }
task depend(out: part10) depend(inout: input) { work 2 } task depend(inout: part10) { work 7 }
task depend(inout: part10) { work 5 } task depend(in: part10) depend(inout: output) { work 3 }
taskwait work 1";

const STENCIL: &str = "omptasks 1
work 1 task depend(in: u1, u2) depend(out: v1) { work 9 }
task depend(in: u1, u2, u3) depend(out: v2) { work 2 } task depend(in: u2, u3, u4) depend(out: v3) {
work 2 } task depend(in: u3, u4, u5) depend(out: v4) { work 2 }
task depend(in: u4, u5, u6) depend(out: v5) { work 2 } task depend(in: u5, u6, u7) depend(out: v6) {
work 2 } task depend(in: u6, u7, u8) depend(out: v7) { work 2 }
task depend(in: u7, u8) depend(out: v8) { work 2 } task depend(in: v1, v2) depend(out: u1) {
work 2 } task depend(in: v1, v2, v3) depend(out: u2) { work 2 }
task depend(in: v2, v3, v4) depend(out: u3) { work 2 } task depend(in: v3, v4, v5) depend(out: u4) {
work 2 } task depend(in: v4, v5, v6) depend(out: u5) { work 9 }
task depend(in: v5, v6, v7) depend(out: u6) { work 2 } task depend(in: v6, v7, v8) depend(out: u7) {
work 2 } task depend(in: v7, v8) depend(out: u8) { work 2 }
task depend(in: u1, u2) depend(out: v1) { work 9 } task depend(in: u1, u2, u3) depend(out: v2) {
work 2 } task depend(in: u2, u3, u4) depend(out: v3) { work 2 }
task depend(in: u3, u4, u5) depend(out: v4) { work 2 } task depend(in: u4, u5, u6) depend(out: v5) {
work 2 } task depend(in: u5, u6, u7) depend(out: v6) { work 2 }
task depend(in: u6, u7, u8) depend(out: v7) { work 2 } task depend(in: u7, u8) depend(out: v8) {
work 2 } task depend(in: v1, v2) depend(out: u1) { work 2 }
task depend(in: v1, v2, v3) depend(out: u2) { work 2 } task depend(in: v2, v3, v4) depend(out: u3) {
work 2 } task depend(in: v3, v4, v5) depend(out: u4) { work 2 }
task depend(in: v4, v5, v6) depend(out: u5) { work 9 } task depend(in: v5, v6, v7) depend(out: u6) {
work 2 } task depend(in: v6, v7, v8) depend(out: u7) { work 2 }
task depend(in: v7, v8) depend(out: u8) { work 2 } task depend(in: u1, u2) depend(out: v1) {
work 9 } task depend(in: u1, u2, u3) depend(out: v2) { work 2 }
task depend(in: u2, u3, u4) depend(out: v3) { work 2 } task depend(in: u3, u4, u5) depend(out: v4) {
work 2 } task depend(in: u4, u5, u6) depend(out: v5) { work 2 }
task depend(in: u5, u6, u7) depend(out: v6) { work 2 } task depend(in: u6, u7, u8) depend(out: v7) {
work 2 } task depend(in: u7, u8) depend(out: v8) { work 2 }
task depend(in: v1, v2) depend(out: u1) { work 2 } task depend(in: v1, v2, v3) depend(out: u2) {
work 2 } task depend(in: v2, v3, v4) depend(out: u3) { work 2 }
task depend(in: v3, v4, v5) depend(out: u4) { work 2 } task depend(in: v4, v5, v6) depend(out: u5) {
work 9 } task depend(in: v5, v6, v7) depend(out: u6) { work 2 }
task depend(in: v6, v7, v8) depend(out: u7) { work 2 } task depend(in: v7, v8) depend(out: u8) {
work 2 } task depend(in: u1, u2) depend(out: v1) { work 9 }
task depend(in: u1, u2, u3) depend(out: v2) { work 2 } task depend(in: u2, u3, u4) depend(out: v3) {
work 2 } task depend(in: u3, u4, u5) depend(out: v4) { work 2 }
task depend(in: u4, u5, u6) depend(out: v5) { work 2 } task depend(in: u5, u6, u7) depend(out: v6) {
work 2 } task depend(in: u6, u7, u8) depend(out: v7) { work 2 }
task depend(in: u7, u8) depend(out: v8) { work 2 } task depend(in: v1, v2) depend(out: u1) {
work 2 } task depend(in: v1, v2, v3) depend(out: u2) { work 2 }
task depend(in: v2, v3, v4) depend(out: u3) { work 2 } task depend(in: v3, v4, v5) depend(out: u4) {
work 2 } task depend(in: v4, v5, v6) depend(out: u5) { work 9 }
task depend(in: v5, v6, v7) depend(out: u6) { work 2 } task depend(in: v6, v7, v8) depend(out: u7) {
work 2 } task depend(in: v7, v8) depend(out: u8) { work 2 } taskwait work 1";

pub static EXAMPLES: [Worked; 4] = [
    Worked {
        name: "a tree of tasks, each waiting for its two children",
        text: FIBONACCI,
        work: 61,
        span: 13,
        starts: "0 1 2 3 4 5 6 6 6 6 7 5 5 5 8 4 4 5 5 5 5 6 4 9 3 3 4 5 5 5 5 6 4 4 4 7 3 10 2 2 \
            3 4 5 5 5 5 6 4 4 4 7 3 3 4 4 4 4 5 3 8 2 11 1 1 2 3 4 5 5 5 5 6 4 4 4 7 3 3 4 4 4 4 5 \
            3 8 2 2 3 4 4 4 4 5 3 3 3 6 2 9 1 12 ",
        slacks: "0 0 0 0 0 0 0 0 0 1 0 2 2 3 0 2 2 2 2 2 3 2 5 0 2 2 2 2 2 2 3 2 4 4 5 2 7 0 2 2 2 \
            2 2 2 2 3 2 4 4 5 2 4 4 4 4 4 5 4 7 2 9 0 2 2 2 2 2 2 2 2 3 2 4 4 5 2 4 4 4 4 4 5 4 7 \
            2 4 4 4 4 4 4 5 4 6 6 7 4 9 2 11 0 ",
        chain: "0 1 2 3 4 5 6 10 14 23 37 61 100 ",
    },
    Worked {
        name: "a blocked matrix product",
        text: MATRIX_PRODUCT,
        work: 173,
        span: 19,
        starts: "0 1 1 1 1 1 1 1 1 1 1 1 1 1 1 1 1 1 1 1 1 1 1 1 1 1 1 1 1 1 1 1 1 1 1 1 1 3 1 3 1 \
            3 1 3 1 3 1 3 1 3 1 3 1 3 1 12 1 12 1 12 1 6 1 6 1 6 1 6 1 6 1 6 1 15 1 15 1 15 1 15 1 \
            15 1 15 1 9 1 9 1 9 1 18 ",
        slacks: "0 0 0 9 0 12 0 0 0 3 0 12 0 0 0 3 0 6 0 0 0 0 0 0 2 3 2 3 2 3 2 6 2 6 2 6 2 0 2 0 \
            2 0 2 0 2 0 2 0 2 0 2 0 2 0 5 0 5 0 5 0 5 0 5 0 5 0 5 0 5 0 5 0 8 0 8 0 8 0 8 0 8 0 8 \
            0 8 0 8 0 8 0 17 0 ",
        chain: "0 1 37 55 73 91 ",
    },
    Worked {
        name: "parts that go through stages",
        text: PIPELINE,
        work: 171,
        span: 45,
        starts: "0 0 0 2 0 9 0 14 0 2 0 4 0 11 0 17 0 4 0 6 0 13 0 20 0 6 0 8 0 15 0 23 0 8 0 10 0 \
            17 0 26 0 10 0 12 0 19 0 29 0 12 0 14 0 21 0 32 0 14 0 16 0 23 0 35 0 16 0 18 0 25 0 \
            38 0 18 0 20 0 27 0 41 0 44 ",
        slacks: "0 0 2 0 3 0 3 0 3 1 5 1 6 1 6 0 6 2 8 2 9 2 9 0 9 3 11 3 12 3 12 0 12 4 14 4 15 4 \
            15 0 15 5 17 5 18 5 18 0 18 6 20 6 21 6 21 0 21 7 23 7 24 7 24 0 24 8 26 8 27 8 27 0 \
            27 9 29 9 36 9 41 0 44 0 ",
        chain: "0 1 3 5 7 15 23 31 39 47 55 63 71 79 81 ",
    },
    Worked {
        name: "steps in time over cells",
        text: STENCIL,
        work: 186,
        span: 46,
        starts: "0 1 1 1 1 1 1 1 1 1 1 1 1 1 1 1 1 10 1 10 1 3 1 3 1 3 1 3 1 3 1 3 1 12 1 12 1 12 \
            1 12 1 12 1 12 1 5 1 5 1 21 1 21 1 14 1 14 1 14 1 14 1 14 1 7 1 23 1 23 1 23 1 23 1 23 \
            1 23 1 16 1 16 1 32 1 32 1 25 1 25 1 25 1 25 1 25 1 18 1 34 1 34 1 34 1 34 1 34 1 34 1 \
            27 1 27 1 43 1 43 1 36 1 36 1 36 1 36 1 36 1 29 1 45 ",
        slacks: "0 0 0 7 0 7 0 0 0 0 0 0 2 7 2 7 2 0 2 0 2 7 2 7 2 0 9 7 9 7 11 14 11 0 11 7 11 7 \
            11 0 11 0 11 0 13 14 13 14 13 0 13 0 13 7 13 7 13 0 20 7 20 7 22 21 22 0 22 7 22 7 22 \
            0 22 0 22 0 24 14 24 14 24 0 24 0 24 7 24 7 24 0 31 7 31 7 33 21 33 0 33 7 33 7 33 0 \
            33 0 33 0 35 14 35 14 35 0 35 0 35 7 35 7 35 0 42 7 42 7 42 14 44 0 ",
        chain: "0 1 17 33 49 65 81 97 113 129 ",
    },
];
