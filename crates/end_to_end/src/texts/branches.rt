//! Texts that branch by each condition on each pair of ten longs: at the edges of words and of longs, and with a low word of 0.
use text_maker::{TextMaker, say};

const CONDITIONS: [&str; 10] = [
    "eq", "ne", "sle", "slt", "sge", "sgt", "ule", "ult", "uge", "ugt",
];

const DATA: &str =
    "data $edges = { l 0 1 -1 2147483647 2147483648 -2147483648 4294967296 4294967295 9223372036854775807 -9223372036854775808 }
data $line = { z 100, b 10 }
";

/// What stands between a comparison and the blocks, and the blocks: the one that is met stands next, second, last behind the end, and last where the operands are
/// written over before and the result is read again.
const ENDINGS: [(bool, &str); 4] = [
    (false, "@met\nret 1\n@not\nret 0\n"),
    (false, "@not\nret 0\n@met\nret 1\n"),
    (
        false,
        "@end\n%r =w phi @met 1, @not 0\nret %r\n@not\njmp @end\n@met\njmp @end\n",
    ),
    (true, "@not\nret %c\n@met\nret %c\n"),
];

/// Calls four functions for each pair, and puts out how many of them met the condition.
const CALLS: [&str; 4] = ["f", "g", "h", "k"];

const LAST: &str = "storeb %sum, %at
%at =l add %at, 1
%j1 =l add %j, 8
%more =w cultl %j1, 80
jnz %more, @second, @next
@next
%i1 =l add %i, 8
%done =w ceql %i1, 80
jnz %done, @end, @first
@end
%n =l call $write(w 1, l $line, l 101)
ret
}
";

// A function for each way to go on from a comparison of operands of a class, by the class `of`.
fn push_functions(text: &mut TextMaker, condition: &str, class: &str, of: &str) {
    for (number, (is_over, ending)) in ENDINGS.iter().enumerate() {
        say!(text; "function w ${condition}{number}({class} %a, {class} %b) {{\n@s\n");
        say!(text; "%c =w c{condition}{of} %a, %b\n");
        if *is_over {
            say!(text; "%a ={class} sub %b, %a\n%b ={class} copy 0\n");
        }
        say!(text; "jnz %c, @met, @not\n{ending}}}\n");
    }
}

// The function that puts out a line, a digit for each pair, for four functions over operands of a class.
fn push_row(text: &mut TextMaker, class: &str, load: &str) {
    text.add("function $row(l %f, l %g, l %h, l %k) {\n@s\n%at =l copy $line\n@first\n");
    say!(text; "%i =l phi @s 0, @next %i1\n%p =l add $edges, %i\n%a ={class} {load} %p\n");
    text.add("@second\n%j =l phi @first 0, @second %j1\n%q =l add $edges, %j\n");
    say!(text; "%b ={class} {load} %q\n%sum =w copy 48\n");
    for callee in CALLS {
        say!(text; "%r =w call %{callee}({class} %a, {class} %b)\n%sum =w add %sum, %r\n");
    }
    text.add(LAST);
}

/// Adds a text of a kind: 0 compares longs, 1 longs as words, 2 words. It puts out a line for each condition, with a digit for each pair: 4 where the condition
/// holds, else 0.
pub fn push_branches(text: &mut TextMaker, kind: u64) {
    let (class, of, load) = match kind {
        0 => ("l", "l", "loadl"),
        1 => ("l", "w", "loadl"),
        _ => ("w", "w", "loadsw"),
    };
    text.add(DATA);
    for condition in CONDITIONS {
        push_functions(text, condition, class, of);
    }
    push_row(text, class, load);
    text.add("export function w $main() {\n@s\n");
    for condition in CONDITIONS {
        let c = condition;
        say!(text; "call $row(l ${c}0, l ${c}1, l ${c}2, l ${c}3)\n");
    }
    text.add("ret 0\n}\n");
}
