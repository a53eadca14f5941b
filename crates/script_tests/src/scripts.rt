// Scripts with the answers that they are to get.
use bench::run;
use std::alloc::AllocError;
use std::process::Abort;
use std::test::Fail;

fn add_line(text: &mut String, line: &str) -> Result<(), AllocError> {
    text.push_str(line.trim())?;
    text.push('\n')
}

// What the program writes for an input.
fn written(rt: &impl AllocGlobal, input: &str) -> Result<String, Fail> {
    let mut bytes = Vec::new(rt.alloc());
    run(input.as_bytes(), &mut bytes)?;
    Ok(String::from_utf8(bytes)?)
}

// Each line of an input is answered with the line beside it.
pub(crate) fn check_run(
    rt: &(impl Abort + AllocGlobal),
    input: &str,
    expected: &str,
) -> Result<(), Fail> {
    let output = written(rt, input)?;
    for (command, (answer, due)) in input.lines().zip(output.lines().zip(expected.lines())) {
        assert_eq!(rt; answer, due, "{command}");
    }
    assert_eq!(rt; output.as_str(), expected);
    Ok(())
}

// A script is lines of commands, `;` between those on one line. After a command may stand `>` and its answer; without one
// it is to be answered `ok`.
pub(crate) fn check_script(rt: &(impl Abort + AllocGlobal), script: &str) -> Result<(), Fail> {
    let mut input = String::new(rt.alloc());
    let mut expected = String::new(rt.alloc());
    for step in script.split(['\n', ';']) {
        let (command, answer) = step.split_once('>').unwrap_or((step, "ok"));
        add_line(&mut input, command)?;
        add_line(&mut expected, answer)?;
    }
    check_run(rt, &input, &expected)
}
