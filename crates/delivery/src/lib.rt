// What is delivered, on one page: every claim and theorem of the documents, proved together. There is no code here.
#![tactic(auto)]
