// What the earliest timetable is: of the definition, and of files that are read. It has no code.
#![tactic(auto)]
