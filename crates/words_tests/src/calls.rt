ghost use Rattle.std.specs.Prelude.{◌≡◌, ◌<◌};

use prefix_sum::{draw, halted, ps, psm, raise, read, write};
use shared_words::{Pass, Words};
use std::test::Fail;
use std::thread::join;

#[test]
fn answers_are_the_words(rt: HostRuntime) -> Result<(), Fail> {
    let zeros = vec![in rt.alloc(); 0u64; 13]?;
    let Ok((words, mut pass)) = Words::open(rt.alloc(), zeros, 1 << 63) else {
        panic!(rt; "memory")
    };
    let first = words.enrol(&mut pass);
    let before = words.add(&mut pass, 12, 5);
    let after = words.load(&mut pass, 12);
    assert!(rt; first == 0 && before == 0 && after == 5);
    words.store(&mut pass, 12, 4294967303);
    let seven = read(&words, &mut pass, 12);
    let again = psm(&words, &mut pass, 12, 4294967295);
    let six = read(&words, &mut pass, 12);
    assert!(rt; seven == 7 && again == 7 && six == 6);
    let zero = draw(&words, &mut pass);
    let one = draw(&words, &mut pass);
    assert!(rt; zero == 0 && one == 1);
    let mut other = words.split(&mut pass, 1);
    let second = words.enrol(&mut other);
    assert!(rt; second == 1);
    words.merge(&mut pass, other);
    let last = words.close(pass);
    assert!(rt; last.as_slice() == [2, 2, 0, 0, 0, 0, 0, 0, 0, 0, 0, 0, 8589934598].as_slice());
    Ok(())
}

// Adds 1 to word 12 a thousand times.
fn add_all(words: &Words, mut pass: Pass) -> Pass
    requires of { pass.of ≡ words.now }
    requires room { 0 < pass.known.room }
    requires inside { 12 < words.now.words }
    ensures { result.of ≡ words.now }
{
    words.enrol(&mut pass);
    for _ in 0..1000 {
        words.add(&mut pass, 12, 1);
    }
    pass
}

#[test]
fn two_at_once_add_all(rt: HostRuntime) -> Result<(), Fail> {
    let zeros = vec![in rt.alloc(); 0u64; 13]?;
    let Ok((words, mut pass)) = Words::open(rt.alloc(), zeros, 1 << 63) else {
        panic!(rt; "memory")
    };
    let one = words.split(&mut pass, 1);
    let two = words.split(&mut pass, 1);
    let (one, two) = join(&rt, || add_all(&words, one), || add_all(&words, two));
    words.merge(&mut pass, one);
    words.merge(&mut pass, two);
    let last = words.close(pass);
    assert!(rt; last[0] == 2 && last[12] == 2000);
    Ok(())
}

#[test]
fn the_halt_word_is_seen(rt: HostRuntime) -> Result<(), Fail> {
    let zeros = vec![in rt.alloc(); 0u64; 13]?;
    let Ok((words, mut pass)) = Words::open(rt.alloc(), zeros, 4) else {
        panic!(rt; "memory")
    };
    words.enrol(&mut pass);
    let before = halted(&words, &mut pass);
    raise(&words, &mut pass);
    let after = halted(&words, &mut pass);
    let zero = ps(&words, &mut pass, 7, 1);
    let one = ps(&words, &mut pass, 7, 0);
    write(&words, &mut pass, 4, 9);
    let nine = read(&words, &mut pass, 4);
    assert!(rt; !before && after && zero == 0 && one == 1 && nine == 9);
    drop(words.close(pass));
    Ok(())
}
