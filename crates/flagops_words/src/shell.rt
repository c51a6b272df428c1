//! The shells whose completion of the program's words can be printed.
ghost use Rattle.std.specs.Prelude.{◌≡◌};
ghost use Rattle.flagops_words.specs.Shell.{script_of, shell_named};

/// A shell that completes the words of a command by a script.
#[derive(Clone, Copy, Debug)]
pub enum Shell {
    Bash,
    Fish,
    Zsh,
}

impl Shell {
    /// The shell of this name: `bash`, `fish` or `zsh`.
    pub fn named(name: &str) -> Option<Shell>
        ensures { result ≡ shell_named name.now }
    {
        match name {
            "bash" => Some(Shell::Bash),
            "fish" => Some(Shell::Fish),
            "zsh" => Some(Shell::Zsh),
            _ => None,
        }
    }

    /// The script by which the shell completes the words of `flagops`.
    #[tactic(auto, unfolding(crate::specs::Shell::script_of))]
    pub fn script(self) -> &'static str
        ensures { result.now ≡ script_of self }
    {
        match self {
            Shell::Bash => BASH,
            Shell::Fish => FISH,
            Shell::Zsh => ZSH,
        }
    }
}

const BASH: &str = r#"# bash completion of flagops: source <(flagops completions bash)
_flagops() {
    local word=${COMP_WORDS[COMP_CWORD]}
    COMPREPLY=()
    if [ "$COMP_CWORD" -eq 1 ]; then
        COMPREPLY=($(compgen -W "bucket price check compare resolve plan verify apply drive book ramp verify-ramp picture record tally join ofrep serve follow completions help --help --version" -- "$word"))
        return
    fi
    case ${COMP_WORDS[1]}:$word in
        check:-*) COMPREPLY=($(compgen -W "--strict --json --floats --help" -- "$word")) ;;
        resolve:-*) COMPREPLY=($(compgen -W "--floats --help" -- "$word")) ;;
        compare:-*) COMPREPLY=($(compgen -W "--flag --picture --strict --json --floats --help" -- "$word")) ;;
        bucket:-* | price:-*) COMPREPLY=($(compgen -W "--json --help" -- "$word")) ;;
        plan:-*) COMPREPLY=($(compgen -W "--refine --strict --explain --picture --floats --help" -- "$word")) ;;
        picture:-*) COMPREPLY=($(compgen -W "--refine --ramp --floats --help" -- "$word")) ;;
        verify:-*) COMPREPLY=($(compgen -W "--refine --strict --json --floats --help" -- "$word")) ;;
        ramp:-* | verify-ramp:-*) COMPREPLY=($(compgen -W "--refine --strict --floats --help" -- "$word")) ;;
        tally:-*) COMPREPLY=($(compgen -W "--refine --floats --help" -- "$word")) ;;
        record:-*) COMPREPLY=($(compgen -W "--moment --workers --floats --help" -- "$word")) ;;
        apply:-*) COMPREPLY=($(compgen -W "--keep --write --refine --strict --doubted --step --floats --help" -- "$word")) ;;
        book:-*) COMPREPLY=($(compgen -W "--torn --replace --help" -- "$word")) ;;
        ofrep:-*) COMPREPLY=($(compgen -W "--listen --admin --allow-stop --access-log --idle --max-body --cors --keys --log --log-points --remember --without-record --stream --workers --poll --broken --help" -- "$word")) ;;
        drive:-*) COMPREPLY=($(compgen -W "--add --replace --strict --json --floats --help" -- "$word")) ;;
        serve:-*) COMPREPLY=($(compgen -W "--wait --floats --help" -- "$word")) ;;
        follow:-*) COMPREPLY=($(compgen -W "--wait --help" -- "$word")) ;;
        *:-*) COMPREPLY=($(compgen -W "--help" -- "$word")) ;;
        completions:*) COMPREPLY=($(compgen -W "bash fish zsh" -- "$word")) ;;
        help:*) COMPREPLY=($(compgen -W "bucket price check compare resolve plan verify apply drive book ramp verify-ramp picture record tally join ofrep serve follow completions" -- "$word")) ;;
        resolve:*)
            if [ "$COMP_CWORD" -eq 4 ]; then
                COMPREPLY=($(compgen -W "bool text whole object float boolean string integer" -- "$word"))
            fi
            ;;
    esac
    # Where nothing fits, bash completes the name of a file, and quotes it.
}
complete -o default -F _flagops flagops
"#;

const FISH: &str = r#"# fish completion of flagops: flagops completions fish | source
complete -c flagops -l help -s h -d 'Print help'
complete -c flagops -n __fish_use_subcommand -f -l version -s V -d 'Print the version'
complete -c flagops -n __fish_use_subcommand -f -a bucket -d 'The hash of a key, its point and its variant'
complete -c flagops -n __fish_use_subcommand -f -a price -d 'What a new rule costs the keys of a file'
complete -c flagops -n __fish_use_subcommand -f -a check -d 'Which flags of a document are good'
complete -c flagops -n __fish_use_subcommand -f -a compare -d 'What an edit of a document switches'
complete -c flagops -n __fish_use_subcommand -f -a resolve -d 'What a flag resolves to in a context'
complete -c flagops -n __fish_use_subcommand -f -a plan -d 'The rule that switches the fewest users'
complete -c flagops -n __fish_use_subcommand -f -a verify -d 'Check a plan independently of the planner'
complete -c flagops -n __fish_use_subcommand -f -a apply -d 'A document with the rule of a plan'
complete -c flagops -n __fish_use_subcommand -f -a drive -d 'Evaluate asks and write the book of what they reach'
complete -c flagops -n __fish_use_subcommand -f -a book -d 'Merge books and note lines into one book'
complete -c flagops -n __fish_use_subcommand -f -a ramp -d 'Plan a rollout in steps'
complete -c flagops -n __fish_use_subcommand -f -a verify-ramp -d 'Check the plans of a rollout in steps'
complete -c flagops -n __fish_use_subcommand -f -a picture -d 'Draw a plan as SVG'
complete -c flagops -n __fish_use_subcommand -f -a record -d 'Print the hash inputs that contexts reach'
complete -c flagops -n __fish_use_subcommand -f -a tally -d 'Count sorted hash inputs by their points'
complete -c flagops -n __fish_use_subcommand -f -a join -d 'Join tallies into one'
complete -c flagops -n __fish_use_subcommand -f -a ofrep -d 'Serve evaluations over HTTP'
complete -c flagops -n __fish_use_subcommand -f -a serve -d 'Publish documents to subscribers'
complete -c flagops -n __fish_use_subcommand -f -a follow -d 'Print the snapshots that come'
complete -c flagops -n __fish_use_subcommand -f -a completions -d 'Print the completion of a shell'
complete -c flagops -n __fish_use_subcommand -f -a help -d 'Print the help of a command'
complete -c flagops -n '__fish_seen_subcommand_from bucket price check compare verify drive' -l json -d 'Print the result as JSON'
complete -c flagops -n '__fish_seen_subcommand_from check compare plan verify apply drive ramp verify-ramp' -l strict -d 'Treat warnings as errors'
complete -c flagops -n '__fish_seen_subcommand_from check compare resolve plan verify apply drive ramp verify-ramp picture record tally serve' -l floats -d 'Accept any numbers as variants'
complete -c flagops -n '__fish_seen_subcommand_from compare' -l flag -x -d 'Only the pages of this flag'
complete -c flagops -n '__fish_seen_subcommand_from compare' -l picture -r -d 'Write the picture of the pages'
complete -c flagops -n '__fish_seen_subcommand_from plan' -l explain -d 'Explain the plan in words'
complete -c flagops -n '__fish_seen_subcommand_from plan verify ramp verify-ramp picture tally' -l refine -x -d 'Plan in finer points'
complete -c flagops -n '__fish_seen_subcommand_from plan' -l picture -r -d 'Write the picture of the plan'
complete -c flagops -n '__fish_seen_subcommand_from picture' -l ramp -d 'Draw the steps of a rollout'
complete -c flagops -n '__fish_seen_subcommand_from record' -l moment -x -d 'The time of the evaluations'
complete -c flagops -n '__fish_seen_subcommand_from record' -l workers -x -d 'The most threads that evaluate'
complete -c flagops -n '__fish_seen_subcommand_from apply' -l step -x -d 'The step whose rule is applied'
complete -c flagops -n '__fish_seen_subcommand_from book' -l torn -d 'Skip lines that are not notes'
complete -c flagops -n '__fish_seen_subcommand_from ofrep' -l stream -x -d 'The port of the stream of snapshots'
complete -c flagops -n '__fish_seen_subcommand_from ofrep' -l listen -x -d 'The address and port of the service'
complete -c flagops -n '__fish_seen_subcommand_from ofrep' -l admin -x -d 'The address and port of health and metrics'
complete -c flagops -n '__fish_seen_subcommand_from ofrep' -l allow-stop -d 'Let POST /stop there end the service'
complete -c flagops -n '__fish_seen_subcommand_from ofrep' -l access-log -d 'Write a line for each request'
complete -c flagops -n '__fish_seen_subcommand_from ofrep' -l idle -x -d 'The seconds for which an idle connection is kept'
complete -c flagops -n '__fish_seen_subcommand_from ofrep' -l max-body -x -d 'The most bytes of a body'
complete -c flagops -n '__fish_seen_subcommand_from ofrep' -l cors -x -d 'An origin whose web pages may ask'
complete -c flagops -n '__fish_seen_subcommand_from ofrep' -l keys -r -d 'The file of keys, one of which each request needs'
complete -c flagops -n '__fish_seen_subcommand_from ofrep' -l log -r -d 'The folder of the logs'
complete -c flagops -n '__fish_seen_subcommand_from ofrep' -l log-points -d 'Record hashes instead of hash inputs'
complete -c flagops -n '__fish_seen_subcommand_from ofrep' -l remember -x -d 'The lines of the logs that are remembered'
complete -c flagops -n '__fish_seen_subcommand_from ofrep' -l without-record -x -a 'answer refuse' -d 'What to do with answers that cannot be recorded'
complete -c flagops -n '__fish_seen_subcommand_from ofrep' -l workers -x -d 'The threads that answer'
complete -c flagops -n '__fish_seen_subcommand_from ofrep' -l poll -x -d 'The seconds between two readings of the documents'
complete -c flagops -n '__fish_seen_subcommand_from ofrep' -l broken -x -a 'refuse serve' -d 'What to do with documents that break flags'
complete -c flagops -n '__fish_seen_subcommand_from apply' -l keep -d 'Verify the plan and keep the rest of the text'
complete -c flagops -n '__fish_seen_subcommand_from apply' -l write -d 'With --keep: write over the document'
complete -c flagops -n '__fish_seen_subcommand_from apply' -l refine -x -d 'With --keep: the factor of the plan'
complete -c flagops -n '__fish_seen_subcommand_from apply' -l doubted -d 'With --write: write in spite of doubts'
complete -c flagops -n '__fish_seen_subcommand_from drive' -l add -d 'Keep what the book has'
complete -c flagops -n '__fish_seen_subcommand_from drive book' -l replace -d 'Write even if inputs are lost'
complete -c flagops -n '__fish_seen_subcommand_from serve follow' -l wait -x -d 'The most seconds to wait'
complete -c flagops -n '__fish_seen_subcommand_from completions' -f -a 'bash fish zsh'
"#;

const ZSH: &str = r#"#compdef flagops
# zsh completion of flagops: source <(flagops completions zsh), or a file _flagops on the fpath
_flagops() {
    local -a commands
    commands=(
        'bucket:the hash of a key, its point and its variant'
        'price:what a new rule costs the keys of a file'
        'check:which flags of a document are good'
        'compare:what an edit of a document switches'
        'resolve:what a flag resolves to in a context'
        'plan:the rule that switches the fewest users'
        'verify:check a plan independently of the planner'
        'apply:a document with the rule of a plan'
        'drive:evaluate asks and write the book of what they reach'
        'book:merge books and note lines into one book'
        'ramp:plan a rollout in steps'
        'verify-ramp:check the plans of a rollout in steps'
        'picture:draw a plan as SVG'
        'record:print the hash inputs that contexts reach'
        'tally:count sorted hash inputs by their points'
        'join:join tallies into one'
        'ofrep:serve evaluations over HTTP'
        'serve:publish documents to subscribers'
        'follow:print the snapshots that come'
        'completions:print the completion of a shell'
        'help:print the help of a command'
    )
    if (( CURRENT == 2 )); then
        _describe command commands
        _arguments '--help[print help]' '--version[print the version]'
        return
    fi
    case $words[2] in
        bucket | price) _arguments '--json[print the result as JSON]' '--help[print help]' '*:file:_files' ;;
        check)
            _arguments '--strict[treat warnings as errors]' '--json[print the result as JSON]' \
                '--floats[accept any numbers as variants]' '--help[print help]' '*:file:_files'
            ;;
        resolve) _arguments '--floats[accept any numbers as variants]' '--help[print help]' '*:file:_files' ;;
        compare)
            _arguments '--flag[only the pages of this flag]:KEY:' '--picture[write the picture of the pages]:file:_files' \
                '--strict[treat warnings as errors]' '--json[print the result as JSON]' \
                '--floats[accept any numbers as variants]' '--help[print help]' '*:file:_files'
            ;;
        plan)
            _arguments '--refine[plan in finer points]:M:' '--strict[treat warnings as errors]' '--explain[explain the plan in words]' \
                '--picture[write the picture of the plan]:file:_files' '--floats[accept any numbers as variants]' \
                '--help[print help]' '*:file:_files'
            ;;
        picture)
            _arguments '--refine[plan in finer points]:M:' '--ramp[draw the steps of a rollout]' '--floats[accept any numbers as variants]' \
                '--help[print help]' '*:file:_files'
            ;;
        verify)
            _arguments '--refine[plan in finer points]:M:' '--strict[treat warnings as errors]' '--json[print the result as JSON]' \
                '--floats[accept any numbers as variants]' '--help[print help]' '*:file:_files'
            ;;
        ramp | verify-ramp)
            _arguments '--refine[plan in finer points]:M:' '--strict[treat warnings as errors]' \
                '--floats[accept any numbers as variants]' '--help[print help]' '*:file:_files'
            ;;
        tally)
            _arguments '--refine[plan in finer points]:M:' '--floats[accept any numbers as variants]' '--help[print help]' '*:file:_files'
            ;;
        record)
            _arguments '--moment[the time of the evaluations]:MOMENT:' '--workers[the most threads that evaluate]:WORKERS:' \
                '--floats[accept any numbers as variants]' '--help[print help]' '*:file:_files'
            ;;
        apply)
            _arguments '--keep[verify the plan and keep the rest of the text]' '--write[with --keep\: write over the document]' \
                '--refine[with --keep\: the factor of the plan]:M:' '--strict[treat warnings as errors]' \
                '--doubted[with --write\: write in spite of doubts]' \
                '--step[the step whose rule is applied]:N:' '--floats[accept any numbers as variants]' '--help[print help]' '*:file:_files'
            ;;
        book)
            _arguments '--torn[skip lines that are not notes]' '--replace[write even if inputs are lost]' \
                '--help[print help]' '*:file:_files'
            ;;
        ofrep)
            _arguments '--listen[the address and port of the service]:ADDRESS\:PORT:' '--log[the folder of the logs]:folder:_files -/' \
                '--admin[the address and port of health and metrics]:ADDRESS\:PORT:' \
                '--allow-stop[let POST /stop there end the service]' '--access-log[write a line for each request]' \
                '--log-points[record hashes instead of hash inputs]' \
                '--idle[the seconds for which an idle connection is kept]:S:' '--max-body[the most bytes of a body]:BYTES:' \
                '*--cors[an origin whose web pages may ask]:ORIGIN:' '--keys[the file of keys, one of which each request needs]:file:_files' \
                '--remember[the lines of the logs that are remembered]:N:' \
                '--without-record[what to do with answers that cannot be recorded]:what:(answer refuse)' \
                '--stream[the port of the stream of snapshots]:PORT:' \
                '--workers[the threads that answer]:N:' '--poll[the seconds between two readings of the documents]:SECONDS:' \
                '--broken[what to do with documents that break flags]:what:(refuse serve)' \
                '--help[print help]' '*:file:_files'
            ;;
        drive)
            _arguments '--add[keep what the book has]' '--replace[write even if inputs are lost]' \
                '--strict[treat warnings as errors]' '--json[print the result as JSON]' \
                '--floats[accept any numbers as variants]' '--help[print help]' '*:file:_files'
            ;;
        serve)
            _arguments '--wait[the most seconds to wait]:S:' '--floats[accept any numbers as variants]' '--help[print help]' '*:file:_files'
            ;;
        follow) _arguments '--wait[the most seconds to wait]:S:' '--help[print help]' '*:file:_files' ;;
        completions) _arguments '--help[print help]' '2:shell:(bash fish zsh)' ;;
        *) _arguments '--help[print help]' '*:file:_files' ;;
    esac
}
if [ "$funcstack[1]" = _flagops ]; then _flagops "$@"; else compdef _flagops flagops; fi
"#;
